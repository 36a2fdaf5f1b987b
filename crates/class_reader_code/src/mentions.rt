//! The mentions of instructions, in the order of the code. A place here stands behind the whole code: mentions move its
//! counter alone.

ghost use Rattle.jvm_code_needs.specs.Needs.{wants};
ghost use Rattle.jvm_class_formats.specs.Reads.{Reads};
ghost use Rattle.jvm_class_grammar.specs.Instructions.{counted_at, mentions_at};
ghost use Rattle.jvm_class_grammar.specs.Kinds.{needed};
ghost use Rattle.jvm_code.specs.Decoding.{rows};
ghost use Rattle.jvm_code_instructions.specs.Table.{row_of};
ghost use Rattle.std.specs.Prelude.{◌+◌, ◌^◌, ◌<◌, Some};

use jvm_class_formats::{Place, ReadErr};
use jvm_code::Instr;
use jvm_code_needs::needs::{Need, need_of};
use jvm_mentions::behind_mention;
use jvm_pool::Pool;
use std::alloc::Global;

/// The place behind a mention by index, in an instruction that starts at `at`.
fn behind_need<'a>(
    pool: &Pool,
    alloc: Global,
    index: u16,
    need: Need,
    at: u64,
    place: Place<'a>,
) -> Result<Place<'a>, ReadErr>
    ensures { Reads (λ s. s) result (counted_at pool.now at place.entry (Some (index, wants need))) }
{
    match pool.get(index) {
        Some(e) => {
            if need.is_met(e) {
                behind_mention(pool, alloc, e, at, place)
            } else {
                Err(ReadErr::BadBytes { offset: at })
            }
        }
        None => Err(ReadErr::BadBytes { offset: at }),
    }
}

/// The place behind what an instruction mentions, if anything.
fn behind_instruction<'a>(
    pool: &Pool,
    alloc: Global,
    at: u64,
    instr: &Instr,
    place: Place<'a>,
) -> Result<Place<'a>, ReadErr>
    ensures { Reads (λ s. s) result
        (counted_at pool.now at place.entry (needed (row_of instr.now).opcode (row_of instr.now).operands)) }
{
    match need_of(instr) {
        Some((index, need)) => behind_need(pool, alloc, index, need, at, place),
        None => Ok(place),
    }
}

/// The place behind what the instructions of code mention, which starts at `start` in the file. Refused at the first
/// instruction whose index isn't that of an entry of its kind that may be mentioned there.
pub fn behind_mentions<'a>(
    pool: &Pool,
    alloc: Global,
    start: u64,
    instructions: &[(u32, Instr)],
    place: Place<'a>,
) -> Result<Place<'a>, ReadErr>
    requires { start < 2 ^ 63 }
    ensures { Reads (λ s. s) result (mentions_at pool.now start (rows instructions.now) place.entry) }
{
    let mut spot = place;
    for item in instructions {
        let at = start + u64::from(item.0);
        spot = behind_instruction(pool, alloc, at, &item.1, spot)?;
    }
    Ok(spot)
}
