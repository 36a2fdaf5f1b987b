//! Texts in modified UTF-8 (JVMS SE 8 §4.4.7), both ways.

ghost use Rattle.jvm_pool.specs.Modified.{unit_bytes, modified, IsText};
ghost use Rattle.jvm_pool.specs.ModifiedReading as reading;
ghost use Rattle.std.specs.Prelude.{◌≡◌, ◌+◌, ◌*◌, ◌%◌, ◌<◌, ◌≤◌, ℕ, List, ◌++◌, length, take, option_map, IfOk, OnOk, OnErr, Err};

use crate::errors::ModifiedErr;
use kt_base::{NoMemory, Text16};
use std::alloc::Global;

/// Appends the text in modified UTF-8. An error leaves `into` as it was.
pub fn put_modified(text: &Text16, into: &mut Vec<u8>) -> Result<(), NoMemory>
    ensures ok { OnOk result (into.new.items ≡ into.old.items ++ modified text.now) }
    ensures err { OnErr result (into.new.items ≡ into.old.items) }
{
    let length = into.len();
    let outcome = put_units(text.units(), into);
    if outcome.is_err() {
        into.truncate(length);
    }
    outcome
}

/// Appends the units, or only the first of them where memory runs out.
fn put_units(units: &[u16], into: &mut Vec<u8>) -> Result<(), NoMemory>
    ensures ok { OnOk result (into.new.items ≡ into.old.items ++ modified units.now) }
    ensures err { OnErr result (take (length into.old.items) into.new.items ≡ into.old.items) }
{
    for unit in units {
        put_unit(*unit, into)?;
    }
    Ok(())
}

fn put_unit(unit: u16, into: &mut Vec<u8>) -> Result<(), NoMemory>
    ensures ok { OnOk result (into.new.items ≡ into.old.items ++ unit_bytes unit) }
    ensures err { OnErr result (into.new.items ≡ into.old.items) }
{
    if unit == 0 {
        into.extend_from_slice(&[0xC0, 0x80])?;
    } else if unit < 0x80 {
        into.push(unit as u8)?;
    } else if unit < 0x800 {
        let first = (0xC0 + unit / 0x40) as u8;
        into.extend_from_slice(&[first, low_bits(unit)])?;
    } else {
        let first = (0xE0 + unit / 0x1000) as u8;
        into.extend_from_slice(&[first, low_bits(unit / 0x40), low_bits(unit)])?;
    }
    Ok(())
}

/// The byte that has the lowest six bits and stands behind the first one.
fn low_bits(unit: u16) -> u8
    ensures { result ≡ 0x80 + unit % 0x40 }
{
    (0x80 + unit % 0x40) as u8
}

/// The text that these bytes spell in modified UTF-8: `Bad` exactly where they spell none.
///
/// Each text has one spelling. So these are refused: the byte 0, a unit in more bytes than it needs, forms of four
/// bytes, and a unit that is cut off.
pub fn read_modified(alloc: Global, bytes: &[u8]) -> Result<Text16, ModifiedErr>
    ensures found { IfOk result (λ text. IsText text × (bytes.now ≡ modified text)) }
    ensures bad { result ≡ Err ModifiedErr.Bad → (text : List ℕ) → IsText text → bytes.now ≡ modified text → ⊥ }
{
    let mut units = Vec::new(alloc);
    let mut rest = bytes;
    while !rest.is_empty() {
        let Some((unit, behind)) = first_unit(rest) else {
            return Err(ModifiedErr::Bad);
        };
        units.push(unit)?;
        rest = behind;
    }
    Ok(Text16::from_units(units))
}

/// The unit at the front, and the bytes behind it.
fn first_unit(bytes: &[u8]) -> Option<(u16, &[u8])>
    ensures { option_map (λ found. (found.0, found.1.now)) result ≡ reading.first_unit bytes.now }
{
    match bytes {
        [first @ 0x01..=0x7F, rest @ ..] => Some((u16::from(*first), rest)),
        [first @ 0xC0..=0xDF, rest @ ..] => two_byte_unit(*first, rest),
        [first @ 0xE0..=0xEF, rest @ ..] => three_byte_unit(*first, rest),
        _ => None,
    }
}

/// The unit of two bytes whose first byte this is.
fn two_byte_unit(first: u8, bytes: &[u8]) -> Option<(u16, &[u8])>
    requires from { 0xc0 ≤ first }
    requires below { first < 0xe0 }
    ensures { option_map (λ found. (found.0, found.1.now)) result ≡ reading.two_byte_unit first bytes.now }
{
    match bytes {
        [second @ 0x80..=0xBF, rest @ ..] => {
            let unit = u16::from(first - 0xC0) * 0x40 + u16::from(*second - 0x80);
            if unit == 0 || 0x80 <= unit {
                Some((unit, rest))
            } else {
                None
            }
        }
        _ => None,
    }
}

/// The unit of three bytes whose first byte this is.
fn three_byte_unit(first: u8, bytes: &[u8]) -> Option<(u16, &[u8])>
    requires from { 0xe0 ≤ first }
    requires below { first < 0xf0 }
    ensures { option_map (λ found. (found.0, found.1.now)) result ≡ reading.three_byte_unit first bytes.now }
{
    match bytes {
        [second @ 0x80..=0xBF, third @ 0x80..=0xBF, rest @ ..] => {
            let unit = u16::from(first - 0xE0) * 0x1000
                + u16::from(*second - 0x80) * 0x40
                + u16::from(*third - 0x80);
            if 0x800 <= unit {
                Some((unit, rest))
            } else {
                None
            }
        }
        _ => None,
    }
}
