//! Kinds of values, and where one may stand for another (JVMS SE 8 §4.10.1.2).

ghost use Rattle.class_verify_frames.specs.Pairs.{FitsAt};
ghost use Rattle.class_verify_rules.specs.Frames.{forgotten, padded};
ghost use Rattle.class_verify_rules.specs.Kinds.{AllFit, fits, is_array, is_array_class, is_below, is_fresh};
ghost use Rattle.class_verify_rules.specs.Kinds.{is_fresh_this, is_reference, kind_of, operand_fits, width};
ghost use Rattle.std.specs.List.{list_any};
ghost use Rattle.std.specs.Prelude.{◌≡◌, ◌==◌, ◌↔◌, ◌<◌, IsTrue, length};

use class_linked::{Kind, Linked, ValueKind};
use class_supers::cycles::has_number;
use sqlite_items::at;

/// The kind of a declared value.
pub fn kind_of_value(kind: ValueKind) -> Kind
    ensures { result ≡ kind_of kind }
{
    match kind {
        ValueKind::Int | ValueKind::Bool | ValueKind::Char => Kind::Int,
        ValueKind::Long => Kind::Long,
        ValueKind::Object(class) => Kind::Object(class),
    }
}

/// Whether a class is below another, or is it.
pub fn is_class_below(program: &Linked, low: usize, high: usize) -> bool
    ensures { result ≡ is_below program.now low high }
{
    match at(program.classes.as_slice(), low) {
        None => false,
        Some(class) => has_number(class.supers.as_slice(), high),
    }
}

/// Whether a value of a kind may stand for one of another.
pub fn kind_fits(program: &Linked, kind: Kind, wanted: Kind) -> bool
    ensures { result ≡ fits program.now kind wanted }
{
    match wanted {
        Kind::Top => true,
        Kind::Int => match kind {
            Kind::Int => true,
            _ => false,
        },
        Kind::Long => match kind {
            Kind::Long => true,
            _ => false,
        },
        Kind::Null => match kind {
            Kind::Null => true,
            _ => false,
        },
        Kind::Object(high) => match kind {
            Kind::Null => true,
            Kind::Object(low) => is_class_below(program, low, high),
            _ => false,
        },
        Kind::Fresh(other) => match kind {
            Kind::Fresh(offset) => offset == other,
            _ => false,
        },
        Kind::FreshThis => match kind {
            Kind::FreshThis => true,
            _ => false,
        },
    }
}

/// How many units of the operand stack, or of the local variables, a value takes.
pub fn width_of(kind: Kind) -> u16
    ensures is { result ≡ width kind }
    ensures small { result < 3 }
{
    match kind {
        Kind::Long => 2,
        Kind::Top | Kind::Int | Kind::Null | Kind::Object(_) | Kind::Fresh(_) | Kind::FreshThis =>
            1,
    }
}

/// The same on the operand stack, where both take as many units.
pub fn is_operand_for(program: &Linked, kind: Kind, wanted: Kind) -> bool
    ensures { result ≡ operand_fits program.now kind wanted }
{
    kind_fits(program, kind, wanted) && width_of(kind) == width_of(wanted)
}

fn local_fits_at(program: &Linked, kinds: &[Kind], wanted: &[Kind], place: usize) -> bool
    requires kind { place < length kinds.now }
    requires wanted { place < length wanted.now }
    ensures { IsTrue result ↔ FitsAt (fits program.now) kinds.now wanted.now place }
{
    kind_fits(program, kinds[place], wanted[place])
}

/// Whether each local variable may stand for the one that is wanted: behind those that are told nothing is wanted.
#[tactic(auto, using(crate::proofs::Pairs::padded_from, crate::proofs::Pairs::padded_long))]
pub fn locals_fit(program: &Linked, kinds: &[Kind], wanted: &[Kind], most: usize) -> bool
    ensures { IsTrue result ↔ AllFit (fits program.now) kinds.now (padded most wanted.now) }
{
    let count = wanted.len();
    let rest = most.saturating_sub(count);
    if kinds.len() != count + rest {
        return false;
    }
    for place in 0..count {
        if !local_fits_at(program, kinds, wanted, place) {
            return false;
        }
    }
    true
}

/// Whether a kind is a reference, also one that isn't initialized.
pub fn is_reference_kind(kind: Kind) -> bool
    ensures { result ≡ is_reference kind }
{
    match kind {
        Kind::Null | Kind::Object(_) | Kind::Fresh(_) | Kind::FreshThis => true,
        Kind::Top | Kind::Int | Kind::Long => false,
    }
}

/// Whether a class is one of arrays.
pub fn is_class_of_arrays(class: usize) -> bool
    ensures { result ≡ is_array_class class }
{
    class == INT_ARRAY_CLASS || class == OBJECT_ARRAY_CLASS
}

/// Whether a kind is an array, or null.
pub fn is_array_kind(kind: Kind) -> bool
    ensures { result ≡ is_array kind }
{
    match kind {
        Kind::Null => true,
        Kind::Object(class) => is_class_of_arrays(class),
        Kind::Top | Kind::Int | Kind::Long | Kind::Fresh(_) | Kind::FreshThis => false,
    }
}

/// Whether a kind is the object that the *new* at an offset made.
pub fn is_fresh_at(offset: u32, kind: Kind) -> bool
    ensures { result ≡ is_fresh offset kind }
{
    match kind {
        Kind::Fresh(made) => offset == made,
        Kind::Top | Kind::Int | Kind::Long | Kind::Null | Kind::Object(_) | Kind::FreshThis =>
            false,
    }
}

fn is_this(kind: Kind) -> bool
    ensures { result ≡ is_fresh_this kind }
{
    match kind {
        Kind::FreshThis => true,
        Kind::Top | Kind::Int | Kind::Long | Kind::Null | Kind::Object(_) | Kind::Fresh(_) => false,
    }
}

/// Whether the receiver of a constructor that isn't initialized is among these.
pub fn has_fresh_this(kinds: &[Kind]) -> bool
    ensures { result ≡ list_any is_fresh_this kinds.now }
{
    for kind in kinds {
        if is_this(*kind) {
            return true;
        }
    }
    false
}

/// `java/lang/Object`.
pub const OBJECT_CLASS: usize = 0;

/// `java/lang/String`.
pub const STRING_CLASS: usize = 1;

/// `java/lang/Throwable`.
pub const THROWABLE_CLASS: usize = 6;

/// The arrays of `int`s, `[I`.
pub const INT_ARRAY_CLASS: usize = 34;

/// The arrays of references, `[Ljava/lang/Object;`.
pub const OBJECT_ARRAY_CLASS: usize = 35;
