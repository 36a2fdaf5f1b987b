//! Identifiers and literal texts.

ghost use Rattle.jvm_pool.specs.Modified.{modified, unit_bytes};
ghost use Rattle.kt_limits.specs.Limits.{local_names, most_bytes};
ghost use Rattle.kt_limits.specs.Noted.{units_of};
ghost use Rattle.kt_limits.specs.Noting as spec;
ghost use Rattle.kt_sizes.specs.Capped.{cap};
ghost use Rattle.kt_typed.specs.Operators.{local_form};
ghost use Rattle.std.specs.List.{flat_map, list_all};
ghost use Rattle.std.specs.Prelude.{◌≡◌, length, map, nat_le, ℕ};

use crate::limits::{MOST_BYTES, MOST_CHARACTERS};
use kt_base::Name;
use kt_tree::TextPart;
use kt_typed::TypedLocal;

/// Whether a name has at most 255 characters.
pub fn is_short(name: &Name) -> bool
    ensures { result ≡ spec.is_short name.now }
{
    name.as_bytes().len() as u64 <= MOST_CHARACTERS
}

/// Whether the names of locals have at most 255 characters each.
pub fn are_short(locals: &[TypedLocal]) -> bool
    ensures { result ≡ list_all spec.is_short (local_names (map local_form locals.now)) }
{
    for local in locals {
        if !is_short(&local.name) {
            return false;
        }
    }
    true
}

/// How many bytes a UTF-16 code unit has in modified UTF-8 (JVMS SE 8 §4.4.7).
fn unit_length(unit: u16) -> u64
    ensures { result ≡ length (unit_bytes unit) }
{
    if unit == 0 {
        2
    } else if unit < 0x80 {
        1
    } else if unit < 0x800 {
        2
    } else {
        3
    }
}

/// How many bytes code units have in modified UTF-8.
fn units_length(units: &[u16]) -> u64
    ensures { result ≡ cap (length (modified units.now)) }
{
    let mut length = 0;
    for unit in units {
        length = u64::saturating_add(length, unit_length(*unit));
    }
    length
}

/// How many bytes a part of a string has in modified UTF-8.
pub fn part_length(part: &TextPart) -> u64
    ensures { result ≡ cap (length (modified (units_of part.now))) }
{
    match part {
        TextPart::Run(text) => units_length(text.units()),
        TextPart::Escape(unit) => unit_length(*unit),
        TextPart::Dollar => 1,
    }
}

/// Whether so many bytes are at most 65,535.
#[tactic(auto, using(crate::proofs::Lengths::fits_cap))]
fn fits(bytes: u64) -> bool
    ensures { (n : ℕ) → bytes ≡ cap n → result ≡ nat_le n most_bytes }
{
    bytes <= MOST_BYTES
}

/// Whether a part of a string has at most 65,535 bytes in modified UTF-8.
pub fn part_fits(part: &TextPart) -> bool
    ensures { result ≡ spec.fits_constant (units_of part.now) }
{
    fits(part_length(part))
}

/// How many bytes parts of a string have in modified UTF-8 together.
fn parts_length(parts: &[TextPart]) -> u64
    ensures { result ≡ cap (length (modified (flat_map units_of parts.now))) }
{
    let mut length = 0;
    for part in parts {
        length = u64::saturating_add(length, part_length(part));
    }
    length
}

/// Whether parts of a string have at most 65,535 bytes in modified UTF-8 together.
pub fn parts_fit(parts: &[TextPart]) -> bool
    ensures { result ≡ spec.fits_constant (flat_map units_of parts.now) }
{
    fits(parts_length(parts))
}
