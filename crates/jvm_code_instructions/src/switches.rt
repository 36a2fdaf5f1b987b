//! The operands of the two switches (JVMS SE 8 §6.5 *tableswitch*, *lookupswitch*).

ghost use Rattle.std.specs.Prelude.{◌≡◌, ◌+◌, ◌<◌, Ok, map};
ghost use Rattle.jvm_code_instructions.specs.Table.{table_of, lookup_of, pair_of};
ghost use Rattle.jvm_code_instructions.specs.Spelling.{from_least};
ghost use Rattle.jvm_code_instructions.specs.Reading.{Gives, fars_at, pair_at, pairs_at, table_at, lookup_at};

use crate::fault::Fault;
use crate::instr::{LookupSwitch, TableSwitch};
use crate::numbers::{far_of, u32_of, zeros_of};
use std::alloc::Global;

fn fars_of(alloc: Global, at: u32, count: u64, bytes: &[u8]) -> Result<(Vec<u32>, &[u8]), Fault>
    ensures { Gives (λ x. (x.0.items, x.1.now)) result (fars_at at count bytes.now) }
{
    let mut targets = Vec::new(alloc);
    let mut rest = bytes;
    for _ in 0..count {
        let (target, after) = far_of(at, rest)?;
        targets.push(target)?;
        rest = after;
    }
    Ok((targets, rest))
}

#[tactic(auto, unfolding(crate::specs::Reading::table_at))]
pub fn table_switch_of(alloc: Global, at: u32, bytes: &[u8]) -> Result<(TableSwitch, &[u8]), Fault>
    ensures { Gives (λ x. (table_of x.0, x.1.now)) result (table_at at bytes.now) }
{
    let rest = zeros_of(3 - at % 4, bytes)?;
    let (default, rest) = far_of(at, rest)?;
    let (low, rest) = u32_of(rest)?;
    let (high, rest) = u32_of(rest)?;
    if high.cast_signed() < low.cast_signed() {
        return Err(Fault::BadOpcode);
    }
    let count = high.wrapping_sub(low) as u64 + 1;
    let (targets, rest) = fars_of(alloc, at, count, rest)?;
    Ok((
        TableSwitch {
            default,
            low: low.cast_signed(),
            targets,
        },
        rest,
    ))
}

/// A number's place among the signed ones, from the least.
pub fn place_of(number: u32) -> u64
    ensures { result ≡ from_least number }
{
    number.wrapping_add(2147483648) as u64
}

#[tactic(auto, unfolding(crate::specs::Reading::pair_at))]
fn pair_of_bytes(at: u32, first: u64, bytes: &[u8]) -> Result<((i32, u32), &[u8]), Fault>
    ensures { Gives (λ x. (pair_of x.0, x.1.now)) result (pair_at at first bytes.now) }
{
    let (number, rest) = u32_of(bytes)?;
    if place_of(number) < first {
        return Err(Fault::BadOpcode);
    }
    let (target, rest) = far_of(at, rest)?;
    Ok(((number.cast_signed(), target), rest))
}

/// The least place of the next number.
pub fn place_behind(pair: &(i32, u32)) -> u64
    ensures { result ≡ from_least (pair_of pair.now).0 + 1 }
{
    place_of(pair.0.cast_unsigned()) + 1
}

fn pairs_of(
    alloc: Global,
    at: u32,
    count: u32,
    bytes: &[u8],
) -> Result<(Vec<(i32, u32)>, &[u8]), Fault>
    ensures { Gives (λ x. (map pair_of x.0.items, x.1.now)) result (pairs_at at count 0 bytes.now) }
{
    let mut pairs = Vec::new(alloc);
    let mut rest = bytes;
    let mut first = 0u64;
    for _ in 0..count {
        let (pair, after) = pair_of_bytes(at, first, rest)?;
        first = place_behind(&pair);
        pairs.push(pair)?;
        rest = after;
    }
    Ok((pairs, rest))
}

#[tactic(auto, unfolding(crate::specs::Reading::lookup_at))]
pub fn lookup_switch_of(
    alloc: Global,
    at: u32,
    bytes: &[u8],
) -> Result<(LookupSwitch, &[u8]), Fault>
    ensures { Gives (λ x. (lookup_of x.0, x.1.now)) result (lookup_at at bytes.now) }
{
    let rest = zeros_of(3 - at % 4, bytes)?;
    let (default, rest) = far_of(at, rest)?;
    let (count, rest) = u32_of(rest)?;
    if count >= 2147483648 {
        return Err(Fault::BadOpcode);
    }
    let (pairs, rest) = pairs_of(alloc, at, count, rest)?;
    Ok((LookupSwitch { default, pairs }, rest))
}
