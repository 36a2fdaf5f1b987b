//! Texts of numbers and of ASCII bytes.

ghost use Rattle.mach_rows.specs.Texts as spec;
ghost use Rattle.std.specs.Fmt.{signed_decimal};
ghost use Rattle.std.specs.Prelude.{◌≡◌, [], ◌∷◌, ◌++◌, IfOk, OnOk};

use kt_base::{NoMemory, Text16};
use std::alloc::Global;

/// Appends bytes as code units.
fn put_ascii(into: &mut Vec<u16>, bytes: &[u8]) -> Result<(), NoMemory>
    ensures { OnOk result (into.new.items ≡ into.old.items ++ bytes.now) }
{
    for byte in bytes {
        into.push(*byte as u16)?;
    }
    Ok(())
}

/// The text of bytes as code units.
pub fn ascii_text(alloc: Global, bytes: &[u8]) -> Result<Text16, NoMemory>
    ensures { IfOk result (λ t. t ≡ bytes.now) }
{
    let mut units = Vec::new(alloc);
    put_ascii(&mut units, bytes)?;
    Ok(Text16::from_units(units))
}

/// A number in decimal.
pub fn int_text(alloc: Global, number: i32) -> Result<Text16, NoMemory>
    ensures { IfOk result (λ t. t ≡ signed_decimal number) }
{
    let digits = number.to_string(alloc)?;
    ascii_text(alloc, digits.as_str().as_bytes())
}

/// A number in decimal.
pub fn long_text(alloc: Global, number: i64) -> Result<Text16, NoMemory>
    ensures { IfOk result (λ t. t ≡ signed_decimal number) }
{
    let digits = number.to_string(alloc)?;
    ascii_text(alloc, digits.as_str().as_bytes())
}

/// The text of one unit.
pub fn unit_text(alloc: Global, unit: u16) -> Result<Text16, NoMemory>
    ensures { IfOk result (λ t. t ≡ unit ∷ []) }
{
    let mut units = Vec::new(alloc);
    units.push(unit)?;
    Ok(Text16::from_units(units))
}

/// The text of a truth value.
pub fn truth_text(alloc: Global, value: bool) -> Result<Text16, NoMemory>
    ensures { IfOk result (λ t. t ≡ spec.truth_text value) }
{
    if value {
        ascii_text(alloc, b"true")
    } else {
        ascii_text(alloc, b"false")
    }
}
