//! Values as texts, where no class decides.

ghost use Rattle.kt_direct_values.specs.Forms.{value_form};
ghost use Rattle.kt_values.specs.Texts as spec;
ghost use Rattle.kt_values.specs.Values as v;
ghost use Rattle.std.specs.Fmt.{signed_decimal};
ghost use Rattle.std.specs.Prelude.{◌≡◌, [], ◌∷◌, ◌++◌, IfOk, OnOk, Some};

use crate::values::DirectValue;
use kt_base::Text16;
use std::alloc::{AllocError, Global};

/// Appends bytes as code units.
pub fn put_ascii(into: &mut Vec<u16>, bytes: &[u8]) -> Result<(), AllocError>
    ensures { OnOk result (into.new.items ≡ into.old.items ++ bytes.now) }
{
    for byte in bytes {
        into.push(*byte as u16)?;
    }
    Ok(())
}

/// The text of bytes as code units.
pub fn ascii_text(alloc: Global, bytes: &[u8]) -> Result<Text16, AllocError>
    ensures { IfOk result (λ t. t ≡ bytes.now) }
{
    let mut units = Vec::new(alloc);
    put_ascii(&mut units, bytes)?;
    Ok(Text16::from_units(units))
}

/// A number in decimal.
pub fn int_text(alloc: Global, n: i32) -> Result<Text16, AllocError>
    ensures { IfOk result (λ t. t ≡ signed_decimal n) }
{
    let digits = n.to_string(alloc)?;
    ascii_text(alloc, digits.as_str().as_bytes())
}

/// A number in decimal.
pub fn long_text(alloc: Global, n: i64) -> Result<Text16, AllocError>
    ensures { IfOk result (λ t. t ≡ signed_decimal n) }
{
    let digits = n.to_string(alloc)?;
    ascii_text(alloc, digits.as_str().as_bytes())
}

/// The text of one unit.
fn unit_text(alloc: Global, unit: u16) -> Result<Text16, AllocError>
    ensures { IfOk result (λ t. t ≡ unit ∷ []) }
{
    let mut units = Vec::new(alloc);
    units.push(unit)?;
    Ok(Text16::from_units(units))
}

/// The text of a truth value.
fn truth_text(alloc: Global, b: bool) -> Result<Text16, AllocError>
    ensures { IfOk result (λ t. Some t ≡ spec.text_of_basic (v.truth b)) }
{
    if b {
        ascii_text(alloc, b"true")
    } else {
        ascii_text(alloc, b"false")
    }
}

/// The text of a value that is no object and no entry of an enum; none for one.
pub fn text_of_basic(alloc: Global, x: &DirectValue) -> Result<Option<Text16>, AllocError>
    ensures { IfOk result (λ t. t ≡ spec.text_of_basic (value_form x.now)) }
{
    match x {
        DirectValue::Int(n) => Ok(Some(int_text(alloc, *n)?)),
        DirectValue::Long(n) => Ok(Some(long_text(alloc, *n)?)),
        DirectValue::Truth(b) => Ok(Some(truth_text(alloc, *b)?)),
        DirectValue::Character(c) => Ok(Some(unit_text(alloc, *c)?)),
        DirectValue::Text(t) => Ok(Some(t.clone()?)),
        DirectValue::Null => Ok(Some(ascii_text(alloc, b"null")?)),
        DirectValue::Unit => Ok(Some(ascii_text(alloc, b"kotlin.Unit")?)),
        DirectValue::Entry(_, _)
        | DirectValue::Cell(_)
        | DirectValue::Closure(_, _)
        | DirectValue::Reference(_, _) => Ok(None),
    }
}
