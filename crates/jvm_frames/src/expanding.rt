//! Frames from their bytes, until none are left.

ghost use Rattle.jvm_class_formats.specs.Lawful.{IsBytes};
ghost use Rattle.jvm_class_types.specs.Seen as seen;
ghost use Rattle.jvm_class_types.specs.Seen.{frame_seen};
ghost use Rattle.jvm_frames.specs.Expanding.{Gives, IfBad, SpellsFrames, Stops};
ghost use Rattle.jvm_maps.specs.Frames.{before};
ghost use Rattle.std.specs.Prelude.{◌≡◌, List, map, None, IfOk};

use crate::before::before_next;
use crate::errors::FrameErr;
use crate::reading::read_frame;
use jvm_class_formats::{Place, ReadErr};
use jvm_class_types::Frame;
use jvm_pool::Pool;
use std::alloc::Global;

/// The frames that these bytes are, where `first` is the frame at the start of the method: its locals are what the
/// first of them is written against. Each class that they name is in the pool.
///
/// `Bad` comes exactly where the bytes spell no frames, with the offset of the first that can't be read: its start
/// where it breaks its rule, and the length of the bytes where these end within it.
pub fn expand(
    alloc: Global,
    bytes: &[u8],
    first: &Frame,
    pool: &Pool,
) -> Result<Vec<Frame>, FrameErr>
    ensures found { IfOk result (λ frames.
        SpellsFrames pool.now (before None first.now.locals.items) bytes.now (map frame_seen frames.items)) }
    ensures only { (fs : List seen.Frame) → SpellsFrames pool.now (before None first.now.locals.items) bytes.now fs
        → Gives result fs }
    ensures bad { IfBad result (λ at. Stops pool.now (before None first.now.locals.items) bytes.now at) }
{
    are_bytes(bytes);
    let mut frames = Vec::new(alloc);
    let mut rest = Place {
        total: bytes.len(),
        counter: pool.count(),
        bytes,
    };
    while !rest.bytes.is_empty() {
        let (previous, locals) = before_next(&first.locals, &frames);
        let (frame, behind) = read_frame(pool, alloc, previous, locals, rest)?;
        frames.push(frame)?;
        rest = behind;
    }
    Ok(frames)
}

/// Bytes are below 256.
fn are_bytes(bytes: &[u8])
    ensures { IsBytes bytes.now }
{}
