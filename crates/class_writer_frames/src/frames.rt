//! Frames, each written against the one before (JVMS SE 8 §4.7.4).

ghost use Rattle.jvm_class_types.specs.Seen.{frame_seen};
ghost use Rattle.jvm_maps.specs.Frames as frames;
ghost use Rattle.jvm_maps.specs.Frames.{before, delta_of, frames_spell, AreFrames};
ghost use Rattle.jvm_pieces.specs.Pieces.{pieces};
ghost use Rattle.std.specs.Prelude.{◌≡◌, ◌<◌, ◌^◌, ◌++◌, map, true, None, OnOk};

use crate::forms::put_form;
use jvm_class_types::{Frame, FrameType};
use jvm_frames_forms::forms::form_of;
use jvm_pool::Pool;
use kt_base::NoMemory;

/// The delta of a frame: its offset in the first frame, and else one less than the distance from the frame before.
fn delta(previous: Option<u32>, offset: u32) -> u16
    requires later { frames.is_later previous offset ≡ true }
    requires fits { delta_of previous offset < 2 ^ 16 }
    ensures { result ≡ delta_of previous offset }
{
    match previous {
        None => offset as u16,
        Some(before) => (offset - before - 1) as u16,
    }
}

/// Appends a frame, against the offset of the frame before, if any, and its locals.
fn put_frame(
    previous: Option<u32>,
    locals: &[FrameType],
    frame: &Frame,
    pool: &Pool,
    into: &mut Vec<u8>,
) -> Result<(), NoMemory>
    requires { (frames.frame pool.now (before previous locals.now)).allows (frame_seen frame.now) }
    ensures { OnOk result (into.new.items ≡ into.old.items
        ++ pieces pool.now ((frames.frame pool.now (before previous locals.now)).spell (frame_seen frame.now))) }
{
    let delta = delta(previous, frame.offset);
    let form = form_of(locals, delta, &frame.locals, &frame.stack);
    put_form(&form, pool, into)?;
    Ok(())
}

/// Appends frames, the first against the types at the start of the method.
pub fn put_frames<'a>(
    start: &'a [FrameType],
    frames: &'a [Frame],
    pool: &Pool,
    into: &mut Vec<u8>,
) -> Result<(), NoMemory>
    requires { AreFrames pool.now (before None start.now) (map frame_seen frames.now) }
    ensures { OnOk result (into.new.items ≡ into.old.items
        ++ pieces pool.now (frames_spell pool.now (before None start.now) (map frame_seen frames.now))) }
{
    let mut previous: Option<u32> = None;
    let mut locals = start;
    for frame in frames {
        put_frame(previous, locals, frame, pool, into)?;
        previous = Some(frame.offset);
        locals = &frame.locals;
    }
    Ok(())
}
