//! Attributes (JVMS SE 8 §4.7): a name, and what stands in it behind its length.

ghost use Rattle.jvm_class_formats.specs.Formats.{sized};
ghost use Rattle.jvm_class_grammar.specs.Grammar as grammar;
ghost use Rattle.jvm_class_types.specs.Seen.{frame_seen};
ghost use Rattle.jvm_maps.specs.Frames.{before};
ghost use Rattle.jvm_pieces.specs.Pieces.{index, pieces};
ghost use Rattle.jvm_pool.specs.declared.entries.Entry.TheVariants as entry;
ghost use Rattle.std.specs.Int.{to_be_bytes, w16, w32};
ghost use Rattle.std.specs.Prelude.{◌≡◌, ◌<◌, ◌^◌, ◌++◌, codes, length, map, None, OnOk};

use class_writer_frames::put_frames;
use class_writer_members::items::{put_half, put_text, put_word};
use jvm_class_types::{Frame, FrameType};
use jvm_pool::Pool;
use kt_base::{Name, NoMemory};
use std::alloc::Global;

/// Appends the index of the name of a Code attribute.
pub(crate) fn put_code_name(pool: &Pool, alloc: Global, into: &mut Vec<u8>) -> Result<(), NoMemory>
    ensures { OnOk result (into.new.items
        ≡ into.old.items ++ to_be_bytes w16 (index pool.now (entry.Utf8 (codes "Code")))) }
{
    let name = Name::of(alloc, b"Code")?;
    put_text(&name, pool, alloc, into)
}

/// Appends the index of the name of a StackMapTable.
fn put_table_name(pool: &Pool, alloc: Global, into: &mut Vec<u8>) -> Result<(), NoMemory>
    ensures { OnOk result (into.new.items
        ≡ into.old.items ++ to_be_bytes w16 (index pool.now (entry.Utf8 (codes "StackMapTable")))) }
{
    let name = Name::of(alloc, b"StackMapTable")?;
    put_text(&name, pool, alloc, into)
}

/// Appends what stands in an attribute, behind its length.
pub(crate) fn put_behind_length(body: &[u8], into: &mut Vec<u8>) -> Result<(), NoMemory>
    requires { length body.now < 2 ^ 32 }
    ensures { OnOk result (into.new.items
        ≡ into.old.items ++ (to_be_bytes w32 (length body.now) ++ body.now)) }
{
    put_word(body.len() as u32, into)?;
    into.extend_from_slice(body)?;
    Ok(())
}

/// Appends frames behind their number.
fn put_counted_frames(
    frames: &[Frame],
    start: &[FrameType],
    pool: &Pool,
    into: &mut Vec<u8>,
) -> Result<(), NoMemory>
    requires { (grammar.counted_frames pool.now (before None start.now)).allows (map frame_seen frames.now) }
    ensures { OnOk result (into.new.items ≡ into.old.items
        ++ pieces pool.now ((grammar.counted_frames pool.now (before None start.now)).spell
        (map frame_seen frames.now))) }
{
    put_half(frames.len() as u16, into)?;
    put_frames(start, frames, pool, into)?;
    Ok(())
}

/// Appends frames behind the length of what stands there.
fn put_sized_frames(
    frames: &[Frame],
    start: &[FrameType],
    pool: &Pool,
    alloc: Global,
    into: &mut Vec<u8>,
) -> Result<(), NoMemory>
    requires { (sized (grammar.counted_frames pool.now (before None start.now))).allows
        (map frame_seen frames.now) }
    ensures { OnOk result (into.new.items ≡ into.old.items
        ++ pieces pool.now ((sized (grammar.counted_frames pool.now (before None start.now))).spell
        (map frame_seen frames.now))) }
{
    let mut body = Vec::new(alloc);
    put_counted_frames(frames, start, pool, &mut body)?;
    put_behind_length(&body, into)?;
    Ok(())
}

/// Appends a StackMapTable.
fn put_table(
    frames: &[Frame],
    start: &[FrameType],
    pool: &Pool,
    alloc: Global,
    into: &mut Vec<u8>,
) -> Result<(), NoMemory>
    requires { (grammar.attribute pool.now (codes "StackMapTable")
        (grammar.counted_frames pool.now (before None start.now))).allows (map frame_seen frames.now) }
    ensures { OnOk result (into.new.items ≡ into.old.items
        ++ pieces pool.now ((grammar.attribute pool.now (codes "StackMapTable")
        (grammar.counted_frames pool.now (before None start.now))).spell (map frame_seen frames.now))) }
{
    put_table_name(pool, alloc, into)?;
    put_sized_frames(frames, start, pool, alloc, into)?;
    Ok(())
}

/// Appends the attributes of code: a StackMapTable where there are frames, else none.
pub(crate) fn put_code_attributes(
    frames: &[Frame],
    start: &[FrameType],
    pool: &Pool,
    alloc: Global,
    into: &mut Vec<u8>,
) -> Result<(), NoMemory>
    requires { (grammar.code_attributes pool.now (before None start.now)).allows (map frame_seen frames.now) }
    ensures { OnOk result (into.new.items ≡ into.old.items
        ++ pieces pool.now ((grammar.code_attributes pool.now (before None start.now)).spell
        (map frame_seen frames.now))) }
{
    match frames {
        [] => put_half(0, into),
        [_, ..] => {
            put_half(1, into)?;
            put_table(frames, start, pool, alloc, into)
        }
    }
}
