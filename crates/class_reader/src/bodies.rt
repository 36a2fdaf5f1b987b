//! The code of a method (JVMS SE 8 §4.7.3).

ghost use Rattle.class_reader.specs.Bodies.{behind_code, with_code};
ghost use Rattle.jvm_class_formats.specs.Formats.{sized};
ghost use Rattle.jvm_class_formats.specs.Reads.{Reads};
ghost use Rattle.jvm_class_grammar.specs.Grammar as grammar;
ghost use Rattle.jvm_class_types.specs.Seen.{code_seen, frame_seen, handler_seen};
ghost use Rattle.jvm_code.specs.Decoding.{rows};
ghost use Rattle.jvm_maps.specs.Frames.{before};
ghost use Rattle.std.specs.Prelude.{◌≡◌, codes, map, None};

use crate::lengths::code_length;
use crate::tables::code_attributes;
use class_reader_code::code;
use class_reader_members::attributes::{Attribute, attribute_name};
use class_reader_members::handlers::handlers;
use jvm_class_formats::numbers::{half, word};
use jvm_class_formats::{Place, ReadErr};
use jvm_class_types::{Code, Frame, FrameType, Handler};
use jvm_code::Instr;
use jvm_pool::Pool;
use std::alloc::Global;

/// What stands behind code: its exception table and its frames.
fn behind_code<'a>(
    pool: &Pool,
    alloc: Global,
    start: &[FrameType],
    place: Place<'a>,
) -> Result<((Vec<Handler>, Vec<Frame>), Place<'a>), ReadErr>
    ensures { Reads (λ x. ((map handler_seen x.0.0.items, map frame_seen x.0.1.items), x.1)) result
        ((behind_code pool.now (before None start.now)).read place.entry) }
{
    let (handlers, place) = handlers(pool, alloc, place)?;
    let (frames, place) = code_attributes(pool, alloc, start, place)?;
    Ok(((handlers, frames), place))
}

/// Code of so many bytes, and what stands behind it.
fn with_code<'a>(
    pool: &Pool,
    alloc: Global,
    start: &[FrameType],
    length: u32,
    place: Place<'a>,
) -> Result<((Vec<(u32, Instr)>, (Vec<Handler>, Vec<Frame>)), Place<'a>), ReadErr>
    ensures { Reads (λ x. ((rows x.0.0.items, (map handler_seen x.0.1.0.items, map frame_seen x.0.1.1.items)), x.1))
        result ((with_code pool.now (before None start.now) length).read place.entry) }
{
    let (instructions, place) = code(pool, alloc, length, place)?;
    match behind_code(pool, alloc, start, place) {
        Ok((behind, place)) => Ok(((instructions, behind), place)),
        Err(error) => Err(error),
    }
}

/// What stands in a Code attribute behind its length.
fn code_body<'a>(
    pool: &Pool,
    alloc: Global,
    start: &[FrameType],
    place: Place<'a>,
) -> Result<(Code, Place<'a>), ReadErr>
    ensures { Reads (λ x. (code_seen x.0, x.1)) result
        ((grammar.code_body pool.now (before None start.now)).read place.entry) }
{
    let (max_stack, place) = half(place)?;
    let (max_locals, place) = half(place)?;
    let (length, place) = code_length(place)?;
    let ((instructions, (handlers, frames)), place) = with_code(pool, alloc, start, length, place)?;
    Ok((
        Code {
            max_stack,
            max_locals,
            instructions,
            handlers,
            frames,
        },
        place,
    ))
}

/// The same behind the length of what stands there.
fn sized_body<'a>(
    pool: &Pool,
    alloc: Global,
    start: &[FrameType],
    place: Place<'a>,
) -> Result<(Code, Place<'a>), ReadErr>
    ensures { Reads (λ x. (code_seen x.0, x.1)) result
        ((sized (grammar.code_body pool.now (before None start.now))).read place.entry) }
{
    let at = place.offset();
    let (length, place) = word(place)?;
    let before = place.bytes.len();
    let (code, place) = code_body(pool, alloc, start, place)?;
    if before.saturating_sub(place.bytes.len()) == length as usize {
        Ok((code, place))
    } else {
        Err(ReadErr::BadBytes { offset: at })
    }
}

/// A Code attribute of a method that starts with local variables of these types.
pub(crate) fn code_attribute<'a>(
    pool: &Pool,
    alloc: Global,
    start: &[FrameType],
    place: Place<'a>,
) -> Result<(Code, Place<'a>), ReadErr>
    ensures { Reads (λ x. (code_seen x.0, x.1)) result
        ((grammar.attribute pool.now (codes "Code") (grammar.code_body pool.now (before None start.now))).read
        place.entry) }
{
    let place = attribute_name(Attribute::Code, pool, alloc, place)?;
    sized_body(pool, alloc, start, place)
}
