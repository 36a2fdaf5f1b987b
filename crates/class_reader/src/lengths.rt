//! Counts and lengths that keep a rule (JVMS SE 8 §4.7.3, §4.7.4).

ghost use Rattle.jvm_class_formats.specs.Formats.{number};
ghost use Rattle.jvm_class_formats.specs.Reads.{Reads};
ghost use Rattle.std.specs.Int.{w16, w32};
ghost use Rattle.std.specs.Prelude.{◌&&◌, nat_lt};

use jvm_class_formats::numbers::{half, word};
use jvm_class_formats::{Place, ReadErr};

/// The number of the frames in a StackMapTable, which isn't 0.
pub(crate) fn frame_count(place: Place<'_>) -> Result<(u16, Place<'_>), ReadErr>
    ensures { Reads (λ x. (x.0, x.1)) result ((number w16 (λ n. nat_lt 0 n)).read place.entry) }
{
    let at = place.offset();
    let (count, rest) = half(place)?;
    if 0 < count {
        Ok((count, rest))
    } else {
        Err(ReadErr::BadBytes { offset: at })
    }
}

/// The number of the attributes of code: 0 or 1.
pub(crate) fn table_count(place: Place<'_>) -> Result<(u16, Place<'_>), ReadErr>
    ensures { Reads (λ x. (x.0, x.1)) result ((number w16 (λ n. nat_lt n 2)).read place.entry) }
{
    let at = place.offset();
    let (count, rest) = half(place)?;
    if count < 2 {
        Ok((count, rest))
    } else {
        Err(ReadErr::BadBytes { offset: at })
    }
}

/// The length of code: 1 to 65,535.
pub(crate) fn code_length(place: Place<'_>) -> Result<(u32, Place<'_>), ReadErr>
    ensures { Reads (λ x. (x.0, x.1)) result
        ((number w32 (λ n. nat_lt 0 n && nat_lt n 0x10000)).read place.entry) }
{
    let at = place.offset();
    let (length, rest) = word(place)?;
    if 0 < length && length < 0x10000 {
        Ok((length, rest))
    } else {
        Err(ReadErr::BadBytes { offset: at })
    }
}
