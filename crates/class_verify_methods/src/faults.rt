//! The first of several offsets.

ghost use Rattle.class_verify_methods.specs.Faults.{less_of, noted_of, start_of};
ghost use Rattle.std.specs.Prelude.{◌≡◌};

use class_verify_frames::Body;
use sqlite_items::at;

/// The lesser of two offsets, where there are any.
pub fn lesser(one: Option<u32>, other: Option<u32>) -> Option<u32>
    ensures { result ≡ less_of one other }
{
    match one {
        None => other,
        Some(first) => match other {
            None => one,
            Some(second) => { if first <= second { one } else { other } }
        },
    }
}

/// The lesser of two offsets, the second of which counts only where a test failed there.
pub fn noted(least: Option<u32>, stands: bool, offset: u32) -> Option<u32>
    ensures { result ≡ noted_of least stands offset }
{
    if stands {
        least
    } else {
        lesser(least, Some(offset))
    }
}

/// The offset of the instruction of a place.
pub fn offset_of(method: &Body, place: Option<usize>) -> Option<u32>
    ensures { result ≡ start_of method.now.starts.now place }
{
    match place {
        None => None,
        Some(place) => at(method.starts, place).copied(),
    }
}
