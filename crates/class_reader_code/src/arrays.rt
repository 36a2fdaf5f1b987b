//! Code of so many bytes (JVMS SE 8 §4.7.3).

ghost use Rattle.class_reader_code.specs.Refusals.{Refused, mentioned_rows};
ghost use Rattle.jvm_class_formats.specs.Reads.{Reads};
ghost use Rattle.jvm_class_grammar.specs.Instructions as grammar;
ghost use Rattle.jvm_code.specs.Decoding.{rows};
ghost use Rattle.std.specs.Prelude.{◌^◌, ◌<◌};

use crate::mentions::behind_mentions;
use jvm_class_formats::{Place, ReadErr};
use jvm_code::{CodeErr, Instr, decode};
use jvm_pool::Pool;
use std::alloc::Global;

/// What decoding refuses, as a refusal of the file, in which the code starts at `start`.
fn refused(error: CodeErr, start: u64) -> ReadErr
    requires { start < 2 ^ 63 }
    ensures { Refused error start result }
{
    match error {
        CodeErr::BadOpcode { offset } | CodeErr::Cut { offset } | CodeErr::BadTarget { offset } => {
            ReadErr::BadBytes {
                offset: start + u64::from(offset),
            }
        }
        CodeErr::NoMemory => ReadErr::NoMemory,
    }
}

/// Instructions with what they mention, behind which the place stands.
fn with_mentions<'a>(
    pool: &Pool,
    alloc: Global,
    start: u64,
    instructions: Vec<(u32, Instr)>,
    place: Place<'a>,
) -> Result<(Vec<(u32, Instr)>, Place<'a>), ReadErr>
    requires { start < 2 ^ 63 }
    ensures { Reads (λ x. (rows x.0.items, x.1)) result
        (mentioned_rows pool.now start (rows instructions.items) place.entry) }
{
    match behind_mentions(pool, alloc, start, &instructions, place) {
        Ok(behind) => Ok((instructions, behind)),
        Err(error) => Err(error),
    }
}

/// Code of so many bytes. Refused where `decode` refuses it, at that offset in the file; else at the first instruction
/// that mentions what it may not; and at the file's length where that ends within the code.
pub fn code<'a>(
    pool: &Pool,
    alloc: Global,
    length: u32,
    place: Place<'a>,
) -> Result<(Vec<(u32, Instr)>, Place<'a>), ReadErr>
    ensures { Reads (λ x. (rows x.0.items, x.1)) result ((grammar.code pool.now length).read place.entry) }
{
    if place.bytes.len() < length as usize {
        return Err(ReadErr::BadBytes {
            offset: place.total as u64,
        });
    }
    let start = place.offset();
    let (front, bytes) = place.bytes.split_at(length as usize);
    let behind = Place {
        total: place.total,
        counter: place.counter,
        bytes,
    };
    match decode(alloc, front) {
        Ok(instructions) => with_mentions(pool, alloc, start, instructions, behind),
        Err(error) => Err(refused(error, start)),
    }
}
