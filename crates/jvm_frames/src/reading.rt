//! Frames as they are read (JVMS SE 8 §4.7.4).

ghost use Rattle.jvm_class_formats.specs.Formats.{moved_to, number_at, Spot};
ghost use Rattle.jvm_class_formats.specs.Reads.{Reads};
ghost use Rattle.jvm_class_types.specs.Seen as seen;
ghost use Rattle.jvm_class_types.specs.Seen.{frame_seen};
ghost use Rattle.jvm_frames.specs.StepSeen.{fitting, framed_so, judged, meant, step_seen};
ghost use Rattle.jvm_frames_forms.specs.KindsSeen.{kind_seen};
ghost use Rattle.jvm_maps.specs.Frames as frames;
ghost use Rattle.jvm_maps.specs.Frames.{before, frames_at, inside, is_frame_tag, offset_of, tagged};
ghost use Rattle.std.specs.Int.{w8};
ghost use Rattle.std.specs.Prelude.{◌≡◌, ℕ, map, None, Result, Some, IfOk};

use crate::before::before_next;
use crate::steps::{Step, chopped, extended, same, with_one};
use crate::types::{counted_types, frame_type, frame_types};
use jvm_class_formats::numbers::{byte, half};
use jvm_class_formats::{Place, ReadErr};
use jvm_class_types::{Frame, FrameType};
use jvm_frames_forms::Kind;
use jvm_frames_forms::forms::form_of;
use jvm_pool::Pool;
use std::alloc::Global;

/// A frame with one type on the stack, whose delta is known.
fn one_behind<'a>(
    pool: &Pool,
    alloc: Global,
    before: &[FrameType],
    delta: u8,
    place: Place<'a>,
) -> Result<(Step, Place<'a>), ReadErr>
    ensures { Reads (λ x. (step_seen x.0, x.1)) result
        (meant before.now ((frames.behind_kind pool.now (frames.IsSameOne delta)).read place.entry)) }
{
    let (frame_type, place) = frame_type(pool, alloc, place)?;
    let step = with_one(alloc, before, u16::from(delta), frame_type)?;
    Ok((step, place))
}

/// A delta, and one type on the stack.
fn one_far_behind<'a>(
    pool: &Pool,
    alloc: Global,
    before: &[FrameType],
    place: Place<'a>,
) -> Result<(Step, Place<'a>), ReadErr>
    ensures { Reads (λ x. (step_seen x.0, x.1)) result
        (meant before.now ((frames.behind_kind pool.now frames.IsSameOneFar).read place.entry)) }
{
    let (delta, place) = half(place)?;
    let (frame_type, place) = frame_type(pool, alloc, place)?;
    let step = with_one(alloc, before, delta, frame_type)?;
    Ok((step, place))
}

/// A delta, where the last locals are missing, so many of them.
fn chop_behind<'a>(
    pool: &Pool,
    alloc: Global,
    before: &[FrameType],
    count: u8,
    place: Place<'a>,
) -> Result<(Step, Place<'a>), ReadErr>
    ensures { Reads (λ x. (step_seen x.0, x.1)) result
        (meant before.now ((frames.behind_kind pool.now (frames.IsChop count)).read place.entry)) }
{
    let (delta, place) = half(place)?;
    let step = chopped(alloc, before, count, delta)?;
    Ok((step, place))
}

/// A delta.
fn same_far_behind<'a>(
    pool: &Pool,
    alloc: Global,
    before: &[FrameType],
    place: Place<'a>,
) -> Result<(Step, Place<'a>), ReadErr>
    ensures { Reads (λ x. (step_seen x.0, x.1)) result
        (meant before.now ((frames.behind_kind pool.now frames.IsSameFar).read place.entry)) }
{
    let (delta, place) = half(place)?;
    let step = same(alloc, before, delta)?;
    Ok((step, place))
}

/// A delta, and more locals, so many.
fn append_behind<'a>(
    pool: &Pool,
    alloc: Global,
    before: &[FrameType],
    count: u8,
    place: Place<'a>,
) -> Result<(Step, Place<'a>), ReadErr>
    ensures { Reads (λ x. (step_seen x.0, x.1)) result
        (meant before.now ((frames.behind_kind pool.now (frames.IsAppend count)).read place.entry)) }
{
    let (delta, place) = half(place)?;
    let (more, place) = frame_types(pool, alloc, u16::from(count), place)?;
    let step = extended(alloc, before, delta, more)?;
    Ok((step, place))
}

/// A delta, all locals, and the stack.
fn full_behind<'a>(
    pool: &Pool,
    alloc: Global,
    before: &[FrameType],
    place: Place<'a>,
) -> Result<(Step, Place<'a>), ReadErr>
    ensures { Reads (λ x. (step_seen x.0, x.1)) result
        (meant before.now ((frames.behind_kind pool.now frames.IsFull).read place.entry)) }
{
    let (delta, place) = half(place)?;
    let (locals, place) = counted_types(pool, alloc, place)?;
    let (stack, place) = counted_types(pool, alloc, place)?;
    Ok((
        Step {
            delta,
            locals,
            stack,
        },
        place,
    ))
}

/// What stands behind the tag of a kind.
fn behind_kind<'a>(
    pool: &Pool,
    alloc: Global,
    before: &[FrameType],
    kind: Kind,
    place: Place<'a>,
) -> Result<(Step, Place<'a>), ReadErr>
    ensures { Reads (λ x. (step_seen x.0, x.1)) result
        (meant before.now ((frames.behind_kind pool.now (kind_seen kind)).read place.entry)) }
{
    match kind {
        Kind::Same(delta) => {
            let step = same(alloc, before, u16::from(delta))?;
            Ok((step, place))
        }
        Kind::SameOne(delta) => one_behind(pool, alloc, before, delta, place),
        Kind::SameOneFar => one_far_behind(pool, alloc, before, place),
        Kind::Chop(count) => chop_behind(pool, alloc, before, count, place),
        Kind::SameFar => same_far_behind(pool, alloc, before, place),
        Kind::Append(count) => append_behind(pool, alloc, before, count, place),
        Kind::Full => full_behind(pool, alloc, before, place),
    }
}

/// The tag of the frame at a place, and its kind. Refused at its start where that is no tag.
fn kind_at(place: Place<'_>) -> Result<((u8, Kind), Place<'_>), ReadErr>
    ensures read { Reads (λ x. (x.0.0, x.1)) result (number_at w8 is_frame_tag place.entry) }
    ensures kind { IfOk result (λ x. tagged x.0.0 ≡ Some (kind_seen x.0.1)) }
{
    let at = place.offset();
    let (tag, place) = byte(place)?;
    match Kind::of_tag(tag) {
        Some(kind) => Ok(((tag, kind), place)),
        None => Err(ReadErr::BadBytes { offset: at }),
    }
}

/// The offset of a frame, by that of the frame before: `None` exactly where it doesn't fit four bytes.
fn offset_behind(previous: Option<u32>, delta: u16) -> Option<u32>
    ensures { result ≡ fitting (offset_of previous delta) }
{
    match previous {
        None => Some(u32::from(delta)),
        Some(previous) => previous.checked_add(u32::from(delta) + 1),
    }
}

/// The frame that was written so, where that is the first form that fits. Refused at its start where it isn't.
fn framed(
    at: u64,
    previous: Option<u32>,
    locals: &[FrameType],
    kind: Kind,
    step: Step,
) -> Result<Frame, ReadErr>
    ensures { Reads frame_seen result (judged at (before previous locals.now) (kind_seen kind) (step_seen step)) }
{
    let first = form_of(locals, step.delta, &step.locals, &step.stack).kind();
    match offset_behind(previous, step.delta) {
        Some(offset) if first.is(kind) => Ok(Frame {
            offset,
            locals: step.locals,
            stack: step.stack,
        }),
        _ => Err(ReadErr::BadBytes { offset: at }),
    }
}

/// The frame behind a tag of a kind.
fn frame_behind<'a>(
    pool: &Pool,
    alloc: Global,
    at: u64,
    previous: Option<u32>,
    locals: &[FrameType],
    kind: Kind,
    place: Place<'a>,
) -> Result<(Frame, Place<'a>), ReadErr>
    ensures { Reads (λ x. (frame_seen x.0, x.1)) result (framed_so (before previous locals.now) at
        ((frames.behind_kind pool.now (kind_seen kind)).read place.entry)) }
{
    let (step, behind) = behind_kind(pool, alloc, locals, kind, place)?;
    let frame = framed(at, previous, locals, kind, step)?;
    Ok((frame, behind))
}

/// A frame that isn't one item yet.
fn inside_frame<'a>(
    pool: &Pool,
    alloc: Global,
    previous: Option<u32>,
    locals: &[FrameType],
    place: Place<'a>,
) -> Result<(Frame, Place<'a>), ReadErr>
    ensures { Reads (λ x. (frame_seen x.0, x.1)) result
        ((inside pool.now (before previous locals.now)).read place.entry) }
{
    let at = place.offset();
    let ((_tag, kind), place) = kind_at(place)?;
    frame_behind(pool, alloc, at, previous, locals, kind, place)
}

/// What was read of an item that starts there: where it breaks a rule within, it is refused at its start.
fn as_item<'a>(
    start: u64,
    total: u64,
    outcome: Result<(Frame, Place<'a>), ReadErr>,
) -> Result<(Frame, Place<'a>), ReadErr>
    ensures { (read : Result (seen.Frame × Spot) ℕ) → Reads (λ x. (frame_seen x.0, x.1)) outcome.entry read
        → Reads (λ x. (frame_seen x.0, x.1)) result (moved_to start total read) }
{
    match outcome {
        Ok(read) => Ok(read),
        Err(ReadErr::BadBytes { offset }) => {
            if offset == total {
                Err(ReadErr::BadBytes { offset: total })
            } else {
                Err(ReadErr::BadBytes { offset: start })
            }
        }
        Err(ReadErr::NoMemory) => Err(ReadErr::NoMemory),
    }
}

/// A frame behind the one before, of which these are the offset, if there is one, and the locals.
///
/// Refused at its start where its tag is none, a type in it breaks its rule, another form fits first, or its offset
/// doesn't fit four bytes; and at the file's length where that ends within it.
pub fn read_frame<'a>(
    pool: &Pool,
    alloc: Global,
    previous: Option<u32>,
    locals: &[FrameType],
    place: Place<'a>,
) -> Result<(Frame, Place<'a>), ReadErr>
    ensures { Reads (λ x. (frame_seen x.0, x.1)) result
        ((frames.frame pool.now (before previous locals.now)).read place.entry) }
{
    let start = place.offset();
    let total = place.total as u64;
    as_item(
        start,
        total,
        inside_frame(pool, alloc, previous, locals, place),
    )
}

/// So many frames, one behind the other, where these are the locals at the start of the method. Refused at the first
/// that `read_frame` refuses.
pub fn read_frames<'a>(
    pool: &Pool,
    alloc: Global,
    start: &[FrameType],
    count: u16,
    place: Place<'a>,
) -> Result<(Vec<Frame>, Place<'a>), ReadErr>
    ensures { Reads (λ x. (map frame_seen x.0.items, x.1)) result
        (frames_at pool.now (before None start.now) count place.entry) }
{
    let mut frames = Vec::new(alloc);
    let mut rest = place;
    for _turn in 0..count {
        let (previous, locals) = before_next(start, &frames);
        let (frame, behind) = read_frame(pool, alloc, previous, locals, rest)?;
        frames.push(frame)?;
        rest = behind;
    }
    Ok((frames, rest))
}
