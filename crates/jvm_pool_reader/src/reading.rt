//! The constant pool of a class file from its bytes.

ghost use Rattle.jvm_class_formats.specs.Formats.{number_at};
ghost use Rattle.jvm_class_formats.specs.Lawful.{IsBytes};
ghost use Rattle.jvm_class_formats.specs.Reads.{Reads};
ghost use Rattle.jvm_pool_bytes.specs.Reading.{judged, pool_at, raws_at};
ghost use Rattle.jvm_pool_reader.specs.JudgedSoFar.{GivesPool};
ghost use Rattle.std.specs.Int.{w16};
ghost use Rattle.std.specs.Prelude.{◌≡◌, ◌-◌, ◌<◌, [], nat_lt};

use crate::entries::pool_of;
use crate::misfits::first_misfit;
use crate::stretches::stretch;
use jvm_class_formats::numbers::half;
use jvm_class_formats::{Place, ReadErr};
use jvm_pool::Pool;
use std::alloc::Global;

/// The count of the pool, which is one more than its last index. Refused exactly where it is 0, and at the file's
/// length where that ends within it.
fn count_at(place: Place<'_>) -> Result<(u16, Place<'_>), ReadErr>
    ensures { Reads (λ x. (x.0, x.1)) result (number_at w16 (λ n. nat_lt 0 n) place.entry) }
{
    let at = place.offset();
    let (count, behind) = half(place)?;
    if count == 0 {
        return Err(ReadErr::BadBytes { offset: at });
    }
    Ok((count, behind))
}

/// The pool whose count stands before the place.
fn pool_behind<'a>(
    alloc: Global,
    count: u16,
    place: Place<'a>,
) -> Result<(Pool, Place<'a>), ReadErr>
    requires some { 0 < count }
    requires pool { GivesPool (judged count (raws_at (count - 1) (count - 1) [] place)) }
    ensures { Reads (λ x. (x.0, x.1)) result (judged count (raws_at (count - 1) (count - 1) [] place.entry)) }
{
    let (raws, end) = stretch(alloc, u32::from(count) - 1, place)?;
    let misfit = first_misfit(&raws, alloc, u32::from(count))?;
    match misfit {
        Some(offset) => Err(ReadErr::BadBytes { offset }),
        None => match end {
            Ok(behind) => {
                let pool = pool_of(&raws, alloc)?;
                Ok((pool, behind))
            }
            Err(offset) => Err(ReadErr::BadBytes { offset }),
        },
    }
}

/// Bytes are below 256.
fn are_bytes(bytes: &[u8])
    ensures { IsBytes bytes.now }
{}

/// The constant pool that stands at a place, and the place behind it.
///
/// Refused at the first entry that breaks its rule: one of its parts isn't of its kind, it needs more indices than are
/// left, stands already, or is none; at the count where that is 0; and at the file's length where that ends within the
/// pool and no entry before breaks its rule.
pub fn read_pool(alloc: Global, place: Place<'_>) -> Result<(Pool, Place<'_>), ReadErr>
    ensures { Reads (λ x. (x.0, x.1)) result (pool_at place.entry) }
{
    are_bytes(place.bytes);
    let (count, behind) = count_at(place)?;
    pool_behind(alloc, count, behind)
}
