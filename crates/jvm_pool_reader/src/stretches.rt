//! Entries of a pool, one behind the other, until one can't be read.

ghost use Rattle.jvm_class_formats.specs.Formats.{here};
ghost use Rattle.jvm_class_formats.specs.Reads.{Reads};
ghost use Rattle.jvm_class_formats.specs.declared.errors.ReadErr.TheVariants as read_err;
ghost use Rattle.jvm_pool_bytes.specs.Reading as reading;
ghost use Rattle.jvm_pool_bytes.specs.Reading.{raws_at, raws_of};
ghost use Rattle.jvm_pool_reader.specs.Checked.{checked};
ghost use Rattle.std.specs.Prelude.{◌≡◌, ◌<◌, [], IfOk};

use crate::raws::Raws;
use jvm_class_formats::{Place, ReadErr};
use jvm_pool_bytes::raws::RawEntry;
use jvm_pool_bytes::reading::raw_entry;
use kt_base::NoMemory;
use std::alloc::Global;

/// The entry at a place. Refused at its start where it is none, needs more indices than are left or stands already, and
/// at the file's length where that ends within it.
fn next_raw<'a>(
    raws: &Raws,
    alloc: Global,
    left: u32,
    place: Place<'a>,
) -> Result<(RawEntry, Place<'a>), ReadErr>
    ensures { Reads (λ x. (x.0, x.1)) result
        (checked (here place.entry) left (raws_of raws.now) (reading.raw_entry.read place.entry)) }
{
    let at = place.offset();
    let (raw, behind) = raw_entry(alloc, place)?;
    if raw.size() > left || raws.contains(&raw) {
        return Err(ReadErr::BadBytes { offset: at });
    }
    Ok((raw, behind))
}

/// The offset of a refusal.
pub(crate) fn refused_at(error: ReadErr) -> Result<u64, NoMemory>
    ensures { IfOk result (λ offset. error ≡ read_err.BadBytes offset) }
{
    match error {
        ReadErr::BadBytes { offset } => Ok(offset),
        ReadErr::NoMemory => Err(NoMemory),
    }
}

/// The entries from a place on that take so many indices, and the place behind them; or those before one that is
/// refused, and the offset of the refusal.
pub fn stretch<'a>(
    alloc: Global,
    units: u32,
    place: Place<'a>,
) -> Result<(Raws, Result<Place<'a>, u64>), NoMemory>
    requires { units < 65535 }
    ensures { IfOk result (λ x. (x.0, x.1) ≡ raws_at units units [] place.entry) }
{
    let mut raws = Raws::new(alloc);
    let mut rest = place;
    'entries: while raws.next() <= units {
        let at = rest.offset();
        let left = units + 1 - raws.next();
        match next_raw(&raws, alloc, left, rest) {
            Ok((raw, behind)) => {
                raws = raws.with(at, raw)?;
                rest = behind;
            }
            Err(error) => {
                let offset = refused_at(error)?;
                return Ok((raws, Err(offset)));
            }
        }
    }
    Ok((raws, Ok(rest)))
}
