//! Subtyping (Kotlin specification, "Subtyping").

ghost use Rattle.kt_types.specs.Bounds.{IsAtOnce, IsUnderIn};
ghost use Rattle.kt_types.specs.Null.{IsWithoutNull, bare};
ghost use Rattle.kt_types_order.specs.Below.{IsBelow, IsJoin};
ghost use Rattle.kt_types_order.specs.Climbing.{Allows, IsNoClass, IsUnder};
ghost use Rattle.kt_types_order.specs.Graph.{ClassesEnd};
ghost use Rattle.kt_types_tree.specs.Hierarchy.{hierarchy_form};
ghost use Rattle.kt_types_tree.specs.Types.{any, forms_of, of, parameter, shape_form, type_form, typed};
ghost use Rattle.kt_types_tree.specs.declared.types.TypeConstructor.TheVariants.{Class};
ghost use Rattle.std.specs.Prelude.{◌≡◌, ◌↔◌, ◌||◌, IfOk, IsTrue, MatchOption, false, map, true};

use kt_base::NoMemory;
use kt_types_climbing::climbing::climbs;
use kt_types_tree::equality::{are_same, is_same_constructor};
use kt_types_tree::{Hierarchy, KtType, TypeConstructor, TypeShape};
use sqlite_items::at;
use std::alloc::Global;

/// Whether null is allowed above where it is allowed below.
fn allows(below: bool, above: bool) -> bool
    ensures { IsTrue result ↔ Allows below above }
{
    above || !below
}

fn either(a: bool, b: bool) -> bool
    ensures { result ≡ (a || b) }
{
    a || b
}

/// The class that a constructor is.
fn class_of(constructor: TypeConstructor) -> Option<u32>
    ensures { MatchOption result (IsNoClass constructor) (λ class. constructor ≡ Class class) }
{
    match constructor {
        TypeConstructor::Class(class) => Some(class),
        _ => None,
    }
}

/// Whether a type with arguments is a subtype of another with arguments, both without `?`.
fn is_constructed_below(
    h: &Hierarchy,
    constructor: TypeConstructor,
    arguments: &[KtType],
    other: TypeConstructor,
    others: &[KtType],
) -> bool
    requires classes { ClassesEnd (hierarchy_form h.now) }
    ensures { IsTrue result ↔ IsUnder (hierarchy_form h.now) false
        (of constructor (forms_of (map type_form arguments.now))) false
        (of other (forms_of (map type_form others.now))) }
{
    match class_of(constructor) {
        None => is_same_constructor(constructor, other) && are_same(arguments, others),
        Some(class) => match class_of(other) {
            None => false,
            Some(wanted) => climbs(h, class, arguments, wanted, others),
        },
    }
}

/// Whether a type with arguments is a subtype of another type.
fn is_of_below(
    h: &Hierarchy,
    nullable: bool,
    constructor: TypeConstructor,
    arguments: &[KtType],
    may: bool,
    b: &TypeShape,
) -> bool
    requires classes { ClassesEnd (hierarchy_form h.now) }
    ensures { IsTrue result ↔ IsUnder (hierarchy_form h.now) nullable
        (of constructor (forms_of (map type_form arguments.now))) may (shape_form b.now) }
{
    if !allows(nullable, may) {
        return false;
    }
    match b {
        TypeShape::Nothing => false,
        TypeShape::Any => true,
        TypeShape::Parameter(_, _) => false,
        TypeShape::Of(other, others) => {
            is_constructed_below(h, constructor, arguments, *other, others.as_slice())
        }
    }
}

fn is_any(b: &TypeShape) -> bool
    ensures { IsTrue result ↔ (shape_form b.now ≡ any) }
{
    match b {
        TypeShape::Any => true,
        _ => false,
    }
}

fn is_parameter(row: u32, place: u32, b: &TypeShape) -> bool
    ensures { IsTrue result ↔ (shape_form b.now ≡ parameter row place) }
{
    match b {
        TypeShape::Parameter(other, other_place) => row == *other && place == *other_place,
        _ => false,
    }
}

fn is_any_nullable(may: bool, b: &TypeShape) -> bool
    ensures { IsTrue result ↔ (may ≡ true) × (shape_form b.now ≡ any) }
{
    may && is_any(b)
}

fn is_parameter_itself(nullable: bool, row: u32, place: u32, may: bool, b: &TypeShape) -> bool
    ensures { IsTrue result ↔ Allows nullable may × (shape_form b.now ≡ parameter row place) }
{
    allows(nullable, may) && is_parameter(row, place, b)
}

fn is_at_once(nullable: bool, row: u32, place: u32, may: bool, b: &TypeShape) -> bool
    ensures { IsTrue result ↔ IsAtOnce nullable row place may (shape_form b.now) }
{
    is_any_nullable(may, b) || is_parameter_itself(nullable, row, place, may, b)
}

/// Whether a type is a subtype of another, with at most so many steps from a type parameter to its bound.
#[cycle(below)]
fn is_shape_below(
    h: &Hierarchy,
    steps: usize,
    nullable: bool,
    a: &TypeShape,
    may: bool,
    b: &TypeShape,
) -> bool
    requires classes { ClassesEnd (hierarchy_form h.now) }
    ensures { IsTrue result ↔ IsUnderIn (hierarchy_form h.now) steps nullable (shape_form a.now) may
        (shape_form b.now) }
{
    match a {
        TypeShape::Nothing => allows(nullable, may),
        TypeShape::Any => is_any(b) && allows(nullable, may),
        TypeShape::Parameter(row, place) => {
            is_parameter_below(h, steps, nullable, *row, *place, may, b)
        }
        TypeShape::Of(constructor, arguments) => {
            is_of_below(h, nullable, *constructor, arguments.as_slice(), may, b)
        }
    }
}

/// The same of a type parameter.
#[cycle(below)]
fn is_parameter_below(
    h: &Hierarchy,
    steps: usize,
    nullable: bool,
    row: u32,
    place: u32,
    may: bool,
    b: &TypeShape,
) -> bool
    requires classes { ClassesEnd (hierarchy_form h.now) }
    ensures { IsTrue result ↔ IsUnderIn (hierarchy_form h.now) steps nullable (parameter row place) may
        (shape_form b.now) }
{
    if is_at_once(nullable, row, place, may, b) {
        return true;
    }
    if steps == 0 {
        return false;
    }
    match at(h.bounds.as_slice(), row as usize) {
        None => false,
        Some(bound) => is_shape_below(
            h,
            steps - 1,
            either(nullable, bound.nullable),
            &bound.shape,
            may,
            b,
        ),
    }
}

/// Whether a shape is a subtype of another, each with `?` or without.
fn is_shape_subtype(h: &Hierarchy, nullable: bool, a: &TypeShape, may: bool, b: &TypeShape) -> bool
    requires classes { ClassesEnd (hierarchy_form h.now) }
    ensures { IsTrue result ↔ IsBelow (hierarchy_form h.now) (typed nullable (shape_form a.now))
        (typed may (shape_form b.now)) }
{
    is_shape_below(h, h.bounds.len(), nullable, a, may, b)
}

/// Whether the first type is a subtype of the second. No memory is taken.
pub fn is_subtype(h: &Hierarchy, a: &KtType, b: &KtType) -> bool
    requires classes { ClassesEnd (hierarchy_form h.now) }
    ensures { IsTrue result ↔ IsBelow (hierarchy_form h.now) (type_form a.now) (type_form b.now) }
{
    is_shape_subtype(h, a.nullable, &a.shape, b.nullable, &b.shape)
}

/// The same of the two types without `?`.
pub fn is_subtype_but_null(h: &Hierarchy, a: &KtType, b: &KtType) -> bool
    requires classes { ClassesEnd (hierarchy_form h.now) }
    ensures { IsTrue result ↔ IsBelow (hierarchy_form h.now) (bare (type_form a.now)) (bare (type_form b.now)) }
{
    is_shape_subtype(h, false, &a.shape, false, &b.shape)
}

/// Whether a type without `?` can't be null, which a type parameter can where its bound can.
fn is_below_any(h: &Hierarchy, t: &KtType) -> bool
    requires classes { ClassesEnd (hierarchy_form h.now) }
    ensures { IsTrue result ↔ IsBelow (hierarchy_form h.now) (bare (type_form t.now)) (typed false any) }
{
    is_subtype_but_null(h, t, &KtType::any(false))
}

/// What a value of the type is where it isn't null: the type without `?`, and `Any` where that can still be null.
pub fn without_null(alloc: Global, h: &Hierarchy, t: &KtType) -> Result<KtType, NoMemory>
    requires classes { ClassesEnd (hierarchy_form h.now) }
    ensures { IfOk result (λ r. IsWithoutNull (hierarchy_form h.now) (type_form t.now) (type_form r)) }
{
    if is_below_any(h, t) {
        Ok(t.copy(alloc)?.without_null())
    } else {
        Ok(KtType::any(false))
    }
}

/// The one of two types that is above the other; none where neither is.
pub fn join<'a>(h: &Hierarchy, a: &'a KtType, b: &'a KtType) -> Option<&'a KtType>
    requires classes { ClassesEnd (hierarchy_form h.now) }
    ensures { MatchOption result
        ((IsBelow (hierarchy_form h.now) (type_form a.now) (type_form b.now) → ⊥)
        × (IsBelow (hierarchy_form h.now) (type_form b.now) (type_form a.now) → ⊥))
        (λ t. IsJoin (hierarchy_form h.now) (type_form a.now) (type_form b.now) (type_form t.now)) }
{
    if is_subtype(h, a, b) {
        Some(b)
    } else if is_subtype(h, b, a) {
        Some(a)
    } else {
        None
    }
}
