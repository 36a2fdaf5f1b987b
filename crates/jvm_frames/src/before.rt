//! What a frame is written against: the offset of the frame before, and its locals.

ghost use Rattle.jvm_class_types.specs.Seen.{frame_seen};
ghost use Rattle.jvm_frames.specs.Behind.{behind_all};
ghost use Rattle.jvm_maps.specs.Frames.{before};
ghost use Rattle.std.specs.Prelude.{◌≡◌, map, None};

use jvm_class_types::{Frame, FrameType};

/// What the next frame is written against: the offset of the last of these frames and its locals; where there is none,
/// no offset, and the locals at the start of the method.
pub fn before_next<'a>(
    start: &'a [FrameType],
    frames: &'a [Frame],
) -> (Option<u32>, &'a [FrameType])
    ensures { before result.0 result.1.now ≡ behind_all (before None start.now) (map frame_seen frames.now) }
{
    match frames.last() {
        None => (None, start),
        Some(frame) => (Some(frame.offset), &frame.locals),
    }
}
