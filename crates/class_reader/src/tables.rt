//! The StackMapTable of code (JVMS SE 8 §4.7.4).

ghost use Rattle.jvm_class_formats.specs.Formats.{sized};
ghost use Rattle.jvm_class_formats.specs.Reads.{Reads};
ghost use Rattle.jvm_class_grammar.specs.Grammar as grammar;
ghost use Rattle.jvm_class_types.specs.Seen.{frame_seen};
ghost use Rattle.jvm_maps.specs.Frames.{before};
ghost use Rattle.std.specs.Prelude.{◌≡◌, codes, map, None};

use crate::lengths::{frame_count, table_count};
use class_reader_members::attributes::{Attribute, attribute_name};
use jvm_class_formats::numbers::word;
use jvm_class_formats::{Place, ReadErr};
use jvm_class_types::{Frame, FrameType};
use jvm_frames::read_frames;
use jvm_pool::Pool;
use std::alloc::Global;

/// Frames behind their number.
fn counted_frames<'a>(
    pool: &Pool,
    alloc: Global,
    start: &[FrameType],
    place: Place<'a>,
) -> Result<(Vec<Frame>, Place<'a>), ReadErr>
    ensures { Reads (λ x. (map frame_seen x.0.items, x.1)) result
        ((grammar.counted_frames pool.now (before None start.now)).read place.entry) }
{
    let (count, place) = frame_count(place)?;
    read_frames(pool, alloc, start, count, place)
}

/// Frames behind the length of what stands there.
fn sized_frames<'a>(
    pool: &Pool,
    alloc: Global,
    start: &[FrameType],
    place: Place<'a>,
) -> Result<(Vec<Frame>, Place<'a>), ReadErr>
    ensures { Reads (λ x. (map frame_seen x.0.items, x.1)) result
        ((sized (grammar.counted_frames pool.now (before None start.now))).read place.entry) }
{
    let at = place.offset();
    let (length, place) = word(place)?;
    let before = place.bytes.len();
    let (frames, place) = counted_frames(pool, alloc, start, place)?;
    if before.saturating_sub(place.bytes.len()) == length as usize {
        Ok((frames, place))
    } else {
        Err(ReadErr::BadBytes { offset: at })
    }
}

/// A StackMapTable.
fn table<'a>(
    pool: &Pool,
    alloc: Global,
    start: &[FrameType],
    place: Place<'a>,
) -> Result<(Vec<Frame>, Place<'a>), ReadErr>
    ensures { Reads (λ x. (map frame_seen x.0.items, x.1)) result
        ((grammar.attribute pool.now (codes "StackMapTable")
        (grammar.counted_frames pool.now (before None start.now))).read place.entry) }
{
    let place = attribute_name(Attribute::StackMapTable, pool, alloc, place)?;
    sized_frames(pool, alloc, start, place)
}

/// The attributes of code: a StackMapTable or none. `start` has the types that the method starts with.
pub(crate) fn code_attributes<'a>(
    pool: &Pool,
    alloc: Global,
    start: &[FrameType],
    place: Place<'a>,
) -> Result<(Vec<Frame>, Place<'a>), ReadErr>
    ensures { Reads (λ x. (map frame_seen x.0.items, x.1)) result
        ((grammar.code_attributes pool.now (before None start.now)).read place.entry) }
{
    let (count, place) = table_count(place)?;
    if count == 0 {
        Ok((Vec::new(alloc), place))
    } else {
        table(pool, alloc, start, place)
    }
}
