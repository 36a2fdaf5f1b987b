//! Which types can be printed, compared with `==`, and shared between coroutines. No memory is taken.

ghost use Rattle.kt_types.specs.Kinds as spec;
ghost use Rattle.kt_types.specs.Kinds.{all_shareable, basic_or, class_equates, class_is_enum, class_prints, constructor_shareable, equatable, flag, passes, printable, shape_shareable, shareable};
ghost use Rattle.kt_types_tree.specs.Hierarchy.{hierarchy_form, header_form};
ghost use Rattle.kt_types_tree.specs.Types.{forms_of, shape_form, type_form};
ghost use Rattle.kt_types_tree.specs.declared.types.TypeConstructor.TheVariants.{Class};
ghost use Rattle.std.specs.Prelude.{◌≡◌, map, slice_get};

use kt_types_tree::{ClassHeader, ClassKind, Hierarchy, KtType, TypeConstructor, TypeShape};
use sqlite_items::at;

fn is_enum(kind: ClassKind) -> bool
    ensures { result ≡ spec.is_enum kind }
{
    match kind {
        ClassKind::Enum => true,
        ClassKind::Class => false,
        ClassKind::DataClass => false,
        ClassKind::Interface => false,
    }
}

fn is_data(kind: ClassKind) -> bool
    ensures { result ≡ spec.is_data kind }
{
    match kind {
        ClassKind::DataClass => true,
        ClassKind::Class => false,
        ClassKind::Enum => false,
        ClassKind::Interface => false,
    }
}

fn prints(header: &ClassHeader) -> bool
    ensures { result ≡ class_prints (header_form header.now) }
{
    is_enum(header.kind) || is_data(header.kind) || header.has_to_string
}

fn equates(header: &ClassHeader) -> bool
    ensures { result ≡ class_equates (header_form header.now) }
{
    is_enum(header.kind) || is_data(header.kind) || header.has_equals
}

fn class_prints_at(h: &Hierarchy, class: u32) -> bool
    ensures { result ≡ passes class_prints (slice_get (hierarchy_form h.now).classes class) }
{
    match at(h.classes.as_slice(), class as usize) {
        Some(header) => prints(header),
        None => false,
    }
}

fn class_equates_at(h: &Hierarchy, class: u32) -> bool
    ensures { result ≡ passes class_equates (slice_get (hierarchy_form h.now).classes class) }
{
    match at(h.classes.as_slice(), class as usize) {
        Some(header) => equates(header),
        None => false,
    }
}

fn is_enum_at(h: &Hierarchy, class: u32) -> bool
    ensures { result ≡ passes class_is_enum (slice_get (hierarchy_form h.now).classes class) }
{
    match at(h.classes.as_slice(), class as usize) {
        Some(header) => is_enum(header.kind),
        None => false,
    }
}

fn constructor_prints(h: &Hierarchy, constructor: TypeConstructor) -> bool
    ensures { result ≡ basic_or (hierarchy_form h.now) class_prints constructor }
{
    match constructor {
        TypeConstructor::Int => true,
        TypeConstructor::Long => true,
        TypeConstructor::Boolean => true,
        TypeConstructor::Char => true,
        TypeConstructor::String => true,
        TypeConstructor::Unit => true,
        TypeConstructor::IntArray => false,
        TypeConstructor::Array => false,
        TypeConstructor::Continuation => false,
        TypeConstructor::Class(class) => class_prints_at(h, class),
        TypeConstructor::Function(_) => false,
    }
}

fn constructor_equates(h: &Hierarchy, constructor: TypeConstructor) -> bool
    ensures { result ≡ basic_or (hierarchy_form h.now) class_equates constructor }
{
    match constructor {
        TypeConstructor::Int => true,
        TypeConstructor::Long => true,
        TypeConstructor::Boolean => true,
        TypeConstructor::Char => true,
        TypeConstructor::String => true,
        TypeConstructor::Unit => true,
        TypeConstructor::IntArray => false,
        TypeConstructor::Array => false,
        TypeConstructor::Continuation => false,
        TypeConstructor::Class(class) => class_equates_at(h, class),
        TypeConstructor::Function(_) => false,
    }
}

/// Whether a value of the type can be printed: a basic type, `Unit`, an enum, a data class, or a class that has a
/// `toString` of the unit, each with `?` or without; and `Nothing?`.
pub fn is_printable(h: &Hierarchy, t: &KtType) -> bool
    ensures { result ≡ printable (hierarchy_form h.now) (type_form t.now) }
{
    match &t.shape {
        TypeShape::Nothing => t.nullable,
        TypeShape::Any => false,
        TypeShape::Parameter(_, _) => false,
        TypeShape::Of(constructor, _) => constructor_prints(h, *constructor),
    }
}

/// Whether a value of the type can stand left of `==`: a basic type, `Unit`, an enum, a data class, or a class that
/// has an `equals` of the unit, each with `?` or without.
pub fn is_equatable(h: &Hierarchy, t: &KtType) -> bool
    ensures { result ≡ equatable (hierarchy_form h.now) (type_form t.now) }
{
    match &t.shape {
        TypeShape::Nothing => false,
        TypeShape::Any => false,
        TypeShape::Parameter(_, _) => false,
        TypeShape::Of(constructor, _) => constructor_equates(h, *constructor),
    }
}

fn flag_of(flags: &[bool], row: u32) -> bool
    ensures { result ≡ flag flags.now row }
{
    match at(flags, row as usize) {
        Some(set) => *set,
        None => false,
    }
}

fn class_shareable(h: &Hierarchy, plain: &[bool], class: u32, arguments: bool) -> bool
    ensures { result ≡ constructor_shareable (hierarchy_form h.now) plain.now (Class class) arguments }
{
    is_enum_at(h, class) || (flag_of(plain, class) && arguments)
}

fn is_constructor_shareable(
    h: &Hierarchy,
    plain: &[bool],
    constructor: TypeConstructor,
    arguments: bool,
) -> bool
    ensures { result ≡ constructor_shareable (hierarchy_form h.now) plain.now constructor arguments }
{
    match constructor {
        TypeConstructor::Int => true,
        TypeConstructor::Long => true,
        TypeConstructor::Boolean => true,
        TypeConstructor::Char => true,
        TypeConstructor::String => true,
        TypeConstructor::Unit => true,
        TypeConstructor::IntArray => false,
        TypeConstructor::Array => false,
        TypeConstructor::Continuation => arguments,
        TypeConstructor::Class(class) => class_shareable(h, plain, class, arguments),
        TypeConstructor::Function(_) => false,
    }
}

/// Whether a value of the type may be shared between coroutines, where `plain` says of each class whether it is plain,
/// and `parameters` of each type parameter, by the row of its bound, whether it counts as shareable.
#[cycle(sharing)]
pub fn is_shareable(h: &Hierarchy, plain: &[bool], parameters: &[bool], t: &KtType) -> bool
    ensures { result ≡ shareable (hierarchy_form h.now) plain.now parameters.now (type_form t.now) }
{
    match &t.shape {
        TypeShape::Nothing => true,
        TypeShape::Any => false,
        TypeShape::Parameter(row, _) => flag_of(parameters, *row),
        TypeShape::Of(constructor, arguments) => {
            let shared = are_shareable(h, plain, parameters, arguments.as_slice());
            is_constructor_shareable(h, plain, *constructor, shared)
        }
    }
}

/// The same of each of several types.
#[cycle(sharing)]
fn are_shareable(h: &Hierarchy, plain: &[bool], parameters: &[bool], all: &[KtType]) -> bool
    ensures { result ≡ all_shareable (hierarchy_form h.now) plain.now parameters.now
        (forms_of (map type_form all.now)) }
{
    for t in all {
        if !is_shareable(h, plain, parameters, t) {
            return false;
        }
    }
    true
}
