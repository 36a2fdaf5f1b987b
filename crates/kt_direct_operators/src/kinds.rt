//! A value as what an operation takes.

ghost use Rattle.kt_direct_values.specs.Forms.{value_form};
ghost use Rattle.kt_meaning.specs.Literals as literals;
ghost use Rattle.kt_values.specs.Values as v;
ghost use Rattle.std.specs.Prelude.{◌≡◌, option_map};

use kt_base::Text16;
use kt_direct_values::DirectValue;
use kt_typed::TypedLiteral;

/// The value of a literal that is no string.
pub fn literal_value(literal: TypedLiteral) -> DirectValue
    ensures { value_form result ≡ literals.literal_value literal }
{
    match literal {
        TypedLiteral::Int(n) => DirectValue::Int(n),
        TypedLiteral::Long(n) => DirectValue::Long(n),
        TypedLiteral::Boolean(b) => DirectValue::Truth(b),
        TypedLiteral::Char(c) => DirectValue::Character(c),
        TypedLiteral::Null => DirectValue::Null,
    }
}

/// An `Int`; none where it is of another kind.
pub fn as_int(x: &DirectValue) -> Option<i32>
    ensures { result ≡ v.as_int (value_form x.now) }
{
    match x {
        DirectValue::Int(n) => Some(*n),
        DirectValue::Long(_)
        | DirectValue::Truth(_)
        | DirectValue::Character(_)
        | DirectValue::Text(_)
        | DirectValue::Null
        | DirectValue::Unit
        | DirectValue::Entry(_, _)
        | DirectValue::Cell(_)
        | DirectValue::Closure(_, _)
        | DirectValue::Reference(_, _) => None,
    }
}

/// A number; an `Int` counts as the `Long` of its size.
pub fn as_number(x: &DirectValue) -> Option<i64>
    ensures { result ≡ v.as_number (value_form x.now) }
{
    match x {
        DirectValue::Int(n) => Some(*n as i64),
        DirectValue::Long(n) => Some(*n),
        DirectValue::Truth(_)
        | DirectValue::Character(_)
        | DirectValue::Text(_)
        | DirectValue::Null
        | DirectValue::Unit
        | DirectValue::Entry(_, _)
        | DirectValue::Cell(_)
        | DirectValue::Closure(_, _)
        | DirectValue::Reference(_, _) => None,
    }
}

/// A truth value; none where it is of another kind.
pub fn as_truth(x: &DirectValue) -> Option<bool>
    ensures { result ≡ v.as_truth (value_form x.now) }
{
    match x {
        DirectValue::Truth(b) => Some(*b),
        DirectValue::Int(_)
        | DirectValue::Long(_)
        | DirectValue::Character(_)
        | DirectValue::Text(_)
        | DirectValue::Null
        | DirectValue::Unit
        | DirectValue::Entry(_, _)
        | DirectValue::Cell(_)
        | DirectValue::Closure(_, _)
        | DirectValue::Reference(_, _) => None,
    }
}

/// A character; none where it is of another kind.
pub fn as_character(x: &DirectValue) -> Option<u16>
    ensures { result ≡ v.as_character (value_form x.now) }
{
    match x {
        DirectValue::Character(c) => Some(*c),
        DirectValue::Int(_)
        | DirectValue::Long(_)
        | DirectValue::Truth(_)
        | DirectValue::Text(_)
        | DirectValue::Null
        | DirectValue::Unit
        | DirectValue::Entry(_, _)
        | DirectValue::Cell(_)
        | DirectValue::Closure(_, _)
        | DirectValue::Reference(_, _) => None,
    }
}

/// A text; none where it is of another kind.
pub fn as_text(x: &DirectValue) -> Option<&Text16>
    ensures { option_map (λ t. t.now) result ≡ v.as_text (value_form x.now) }
{
    match x {
        DirectValue::Text(t) => Some(t),
        DirectValue::Int(_)
        | DirectValue::Long(_)
        | DirectValue::Truth(_)
        | DirectValue::Character(_)
        | DirectValue::Null
        | DirectValue::Unit
        | DirectValue::Entry(_, _)
        | DirectValue::Cell(_)
        | DirectValue::Closure(_, _)
        | DirectValue::Reference(_, _) => None,
    }
}

/// The number of a cell; none where it is of another kind.
pub fn as_cell(x: &DirectValue) -> Option<u32>
    ensures { result ≡ v.as_cell (value_form x.now) }
{
    match x {
        DirectValue::Cell(n) => Some(*n),
        DirectValue::Int(_)
        | DirectValue::Long(_)
        | DirectValue::Truth(_)
        | DirectValue::Character(_)
        | DirectValue::Text(_)
        | DirectValue::Null
        | DirectValue::Unit
        | DirectValue::Entry(_, _)
        | DirectValue::Closure(_, _)
        | DirectValue::Reference(_, _) => None,
    }
}

/// Whether it is null.
pub fn is_null(x: &DirectValue) -> bool
    ensures { result ≡ v.is_null (value_form x.now) }
{
    match x {
        DirectValue::Null => true,
        DirectValue::Int(_)
        | DirectValue::Long(_)
        | DirectValue::Truth(_)
        | DirectValue::Character(_)
        | DirectValue::Text(_)
        | DirectValue::Unit
        | DirectValue::Entry(_, _)
        | DirectValue::Cell(_)
        | DirectValue::Closure(_, _)
        | DirectValue::Reference(_, _) => false,
    }
}
