//! Code, with what its instructions mention (JVMS SE 8 §4.7.3).

ghost use Rattle.jvm_code_needs.specs.Needs.{wants};
ghost use Rattle.jvm_class_formats.specs.Formats.{named};
ghost use Rattle.jvm_class_grammar.specs.Kinds.{needed};
ghost use Rattle.jvm_class_judging.specs.Judging.{judge_code, judge_found, judge_needed, judge_rows};
ghost use Rattle.jvm_class_tally.specs.Tallies.{judge_number};
ghost use Rattle.jvm_code.specs.Decoding.{rows};
ghost use Rattle.jvm_code.specs.Spelling.{spelling, Follows};
ghost use Rattle.jvm_code_instructions.specs.Table.{row_of};
ghost use Rattle.std.specs.Int.{w32};
ghost use Rattle.std.specs.Prelude.{◌≡◌, ◌<◌, ◌^◌, ◌&&◌, length, nat_lt, IfSome};

use jvm_class_tally::Tally;
use jvm_code::Instr;
use jvm_code_instructions::size_of;
use jvm_code_needs::needs::{Need, need_of};
use jvm_pool::Pool;
use jvm_pool_judging::counted;

/// The counter behind a mention by index.
fn behind_need(pool: &Pool, index: u16, need: Need, counter: u32) -> Option<u32>
    ensures { result ≡ judge_found pool.now (wants need) (named pool.now index) counter }
{
    match pool.get(index) {
        None => None,
        Some(e) => {
            if need.is_met(e) {
                counted(pool, e, counter)
            } else {
                None
            }
        }
    }
}

/// The counter behind what an instruction mentions, if anything.
fn behind_instruction(pool: &Pool, instr: &Instr, counter: u32) -> Option<u32>
    ensures { result
        ≡ judge_needed pool.now (needed (row_of instr.now).opcode (row_of instr.now).operands) counter }
{
    match need_of(instr) {
        None => Some(counter),
        Some((index, need)) => behind_need(pool, index, need, counter),
    }
}

/// The counter behind what instructions mention.
fn behind_instructions(pool: &Pool, code: &[(u32, Instr)], before: u32) -> Option<u32>
    ensures { result ≡ judge_rows pool.now (rows code.now) before }
{
    let mut counter = before;
    for item in code {
        counter = behind_instruction(pool, &item.1, counter)?;
    }
    Some(counter)
}

/// How many bytes instructions take that follow one another.
pub(crate) fn length_of(code: &[(u32, Instr)]) -> u64
    requires { Follows 0 (rows code.now) }
    ensures { result ≡ length (spelling (rows code.now)) }
{
    let mut end = 0u64;
    for item in code {
        end = u64::from(item.0) + size_of(item.0, &item.1);
    }
    end
}

/// The tally behind the length of code, which is 1 to 65,535.
pub(crate) fn code_length(length: u64, tally: Tally) -> Option<Tally>
    ensures value { result ≡ judge_number w32 (λ n. nat_lt 0 n && nat_lt n 0x10000) length tally }
    ensures short { IfSome result (λ t. length < 0x10000) }
{
    if 0 < length && length < 0x10000 {
        tally.behind(4)
    } else {
        None
    }
}

/// The tally behind instructions that follow one another.
pub(crate) fn instructions(pool: &Pool, code: &[(u32, Instr)], tally: Tally) -> Option<Tally>
    requires follows { Follows 0 (rows code.now) }
    requires short { length (spelling (rows code.now)) < 2 ^ 32 }
    ensures { result ≡ judge_code pool.now (length (spelling (rows code.now))) (rows code.now) tally }
{
    let behind = tally.behind(length_of(code) as u32)?;
    behind.moved(behind_instructions(pool, code, behind.counter))
}
