//! Big-endian numbers.

ghost use Rattle.jvm_class_formats.specs.Formats.{any, number, the, u1, u2, u4};
ghost use Rattle.jvm_class_formats.specs.Reads.{Reads};
ghost use Rattle.std.specs.Int.{w16, w64};
ghost use Rattle.std.specs.Prelude.{◌≡◌};

use crate::errors::ReadErr;
use crate::places::Place;

/// A number of one byte. Refused exactly where the file has ended, at its length.
pub fn byte(place: Place<'_>) -> Result<(u8, Place<'_>), ReadErr>
    ensures { Reads (λ x. (x.0, x.1)) result (u1.read place.entry) }
{
    if place.bytes.is_empty() {
        return Err(ReadErr::BadBytes {
            offset: place.total as u64,
        });
    }
    let (front, bytes) = place.bytes.split_at(1);
    let number = u8::from_be_bytes([front[0]]);
    Ok((
        number,
        Place {
            total: place.total,
            counter: place.counter,
            bytes,
        },
    ))
}

/// A number of two bytes. Refused exactly where the file ends within it, at its length.
pub fn half(place: Place<'_>) -> Result<(u16, Place<'_>), ReadErr>
    ensures { Reads (λ x. (x.0, x.1)) result (u2.read place.entry) }
{
    if place.bytes.len() < 2 {
        return Err(ReadErr::BadBytes {
            offset: place.total as u64,
        });
    }
    let (front, bytes) = place.bytes.split_at(2);
    let number = u16::from_be_bytes([front[0], front[1]]);
    Ok((
        number,
        Place {
            total: place.total,
            counter: place.counter,
            bytes,
        },
    ))
}

/// This number of two bytes. Refused exactly where another stands there, at its offset, or the file ends.
pub fn only_half(wanted: u16, place: Place<'_>) -> Result<(u16, Place<'_>), ReadErr>
    ensures { Reads (λ x. (x.0, x.1)) result ((the w16 wanted).read place.entry) }
{
    if place.bytes.len() < 2 {
        return Err(ReadErr::BadBytes {
            offset: place.total as u64,
        });
    }
    let (front, bytes) = place.bytes.split_at(2);
    let number = u16::from_be_bytes([front[0], front[1]]);
    if number == wanted {
        Ok((
            number,
            Place {
                total: place.total,
                counter: place.counter,
                bytes,
            },
        ))
    } else {
        Err(ReadErr::BadBytes {
            offset: place.offset(),
        })
    }
}

/// A number of four bytes. Refused exactly where the file ends within it, at its length.
pub fn word(place: Place<'_>) -> Result<(u32, Place<'_>), ReadErr>
    ensures { Reads (λ x. (x.0, x.1)) result (u4.read place.entry) }
{
    if place.bytes.len() < 4 {
        return Err(ReadErr::BadBytes {
            offset: place.total as u64,
        });
    }
    let (front, bytes) = place.bytes.split_at(4);
    let number = u32::from_be_bytes([front[0], front[1], front[2], front[3]]);
    Ok((
        number,
        Place {
            total: place.total,
            counter: place.counter,
            bytes,
        },
    ))
}

/// A number of eight bytes. Refused exactly where the file ends within it, at its length.
pub fn long(place: Place<'_>) -> Result<(u64, Place<'_>), ReadErr>
    ensures { Reads (λ x. (x.0, x.1)) result ((number w64 any).read place.entry) }
{
    if place.bytes.len() < 8 {
        return Err(ReadErr::BadBytes {
            offset: place.total as u64,
        });
    }
    let (front, bytes) = place.bytes.split_at(8);
    let number = u64::from_be_bytes([
        front[0], front[1], front[2], front[3], front[4], front[5], front[6], front[7],
    ]);
    Ok((
        number,
        Place {
            total: place.total,
            counter: place.counter,
            bytes,
        },
    ))
}
