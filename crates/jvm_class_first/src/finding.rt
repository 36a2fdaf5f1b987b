//! The code that bytes would be the class file of, if they are one.
//!
//! What stands in the places of entries and instructions is read, and little is tested: whether the bytes are that
//! class file is seen when it is written again.

ghost use Rattle.jvm_class_first.specs.Finding as finding;
ghost use Rattle.std.specs.Prelude.{◌≡◌, IfOk, option_map};

use crate::writing::HEAD;
use kt_base::{NoMemory, Plain};
use std::alloc::Global;

/// How many bytes stand between the pool and the first step: the class and its method up to the attribute, the
/// attribute up to its code, and the call that counts a turn.
const BEFORE_STEPS: usize = 37;

/// How many steps code has at most.
pub const MOST_STEPS: usize = 512;

/// The code that bytes would be the class file of: none where they don't begin as a class file does.
pub fn code_of(alloc: Global, bytes: &[u8]) -> Result<Option<Vec<Plain>>, NoMemory>
    ensures { IfOk result (λ code. option_map (λ code. code.items) code ≡ finding.code_of bytes.now) }
{
    match pool_and_steps(bytes) {
        Some((pool, steps)) => Ok(Some(steps_front(alloc, pool, steps)?)),
        None => Ok(None),
    }
}

/// The pool, and what stands from the first step on.
fn pool_and_steps(bytes: &[u8]) -> Option<(&[u8], &[u8])>
    ensures { option_map (λ found. (found.0.now, found.1.now)) result ≡ finding.pool_and_steps bytes.now }
{
    counted_pool(bytes.strip_prefix(&HEAD)?)
}

/// The same behind the version.
fn counted_pool(bytes: &[u8]) -> Option<(&[u8], &[u8])>
    ensures { option_map (λ found. (found.0.now, found.1.now)) result ≡ finding.counted_pool bytes.now }
{
    match bytes {
        [high, low, pool @ ..] => {
            let count = u16::from_be_bytes([*high, *low]);
            let behind = behind_entries(count.saturating_sub(1), pool)?;
            Some((pool, behind_bytes(BEFORE_STEPS, behind)?))
        }
        _ => None,
    }
}

/// The steps at the front, up to the first bytes that are none.
#[tactic(auto, using(crate::proofs::Walks::step_taken, crate::proofs::Walks::no_step, crate::proofs::Walks::no_more))]
fn steps_front(alloc: Global, pool: &[u8], bytes: &[u8]) -> Result<Vec<Plain>, NoMemory>
    ensures { IfOk result (λ steps. steps.items ≡ finding.steps_front 512 pool.now bytes.now) }
{
    let mut steps = Vec::new(alloc);
    let mut rest = bytes;
    while steps.len() < MOST_STEPS {
        match step_front(pool, rest) {
            Some((step, behind)) => {
                steps.push(step)?;
                rest = behind;
            }
            None => return Ok(steps),
        }
    }
    Ok(steps)
}

/// The step at the front, and what stands behind it.
fn step_front<'a>(pool: &[u8], bytes: &'a [u8]) -> Option<(Plain, &'a [u8])>
    ensures { option_map (λ found. (found.0, found.1.now)) result ≡ finding.step_front pool.now bytes.now }
{
    match bytes {
        [0x13, rest @ ..] => push_front(pool, rest),
        [0x60, rest @ ..] => Some((Plain::Add, rest)),
        [0x64, rest @ ..] => Some((Plain::Sub, rest)),
        [0x68, rest @ ..] => Some((Plain::Mul, rest)),
        [0xB8, rest @ ..] => print_front(rest),
        _ => None,
    }
}

/// The push whose index is at the front.
fn push_front<'a>(pool: &[u8], bytes: &'a [u8]) -> Option<(Plain, &'a [u8])>
    ensures { option_map (λ found. (found.0, found.1.now)) result ≡ finding.push_front pool.now bytes.now }
{
    match bytes {
        [high, low, rest @ ..] => {
            let number = number_at(pool, u16::from_be_bytes([*high, *low]))?;
            Some((Plain::Push(number), rest))
        }
        _ => None,
    }
}

/// The print whose first opcode stood before these bytes.
fn print_front(bytes: &[u8]) -> Option<(Plain, &[u8])>
    ensures { option_map (λ found. (found.0, found.1.now)) result ≡ finding.print_front bytes.now }
{
    match bytes {
        [_, _, _, _, _, rest @ ..] => Some((Plain::Print, rest)),
        _ => None,
    }
}

/// The number at an index. A pool has few entries, so it is found from the front each time.
fn number_at(pool: &[u8], index: u16) -> Option<i32>
    ensures { result ≡ finding.number_at pool.now index }
{
    if index == 0 {
        return None;
    }
    number_front(behind_entries(index - 1, pool)?)
}

/// The number of the entry at the front.
fn number_front(bytes: &[u8]) -> Option<i32>
    ensures { result ≡ finding.number_front bytes.now }
{
    match bytes {
        [3, a, b, c, d, ..] => Some(i32::from_be_bytes([*a, *b, *c, *d])),
        _ => None,
    }
}

/// What stands behind so many entries.
#[tactic(auto, using(crate::proofs::Walks::none_there, crate::proofs::Walks::one_less, crate::proofs::Walks::none_left))]
fn behind_entries(count: u16, bytes: &[u8]) -> Option<&[u8]>
    ensures { option_map (λ rest. rest.now) result ≡ finding.behind_entries count bytes.now }
{
    let mut left = count;
    let mut rest = bytes;
    while 0 < left {
        rest = behind_entry(rest)?;
        left -= 1;
    }
    Some(rest)
}

/// What stands behind the entry at the front (JVMS SE 8 §4.4).
fn behind_entry(bytes: &[u8]) -> Option<&[u8]>
    ensures { option_map (λ rest. rest.now) result ≡ finding.behind_entry bytes.now }
{
    match bytes {
        [1, rest @ ..] => behind_text(rest),
        [3, rest @ ..] => behind_bytes(4, rest),
        [7, rest @ ..] => behind_bytes(2, rest),
        [10, rest @ ..] => behind_bytes(4, rest),
        [12, rest @ ..] => behind_bytes(4, rest),
        _ => None,
    }
}

/// What stands behind a text with its length.
fn behind_text(bytes: &[u8]) -> Option<&[u8]>
    ensures { option_map (λ rest. rest.now) result ≡ finding.behind_text bytes.now }
{
    match bytes {
        [high, low, rest @ ..] => behind_bytes(
            usize::from(u16::from_be_bytes([*high, *low])),
            rest,
        ),
        _ => None,
    }
}

/// What stands behind so many bytes.
fn behind_bytes(count: usize, bytes: &[u8]) -> Option<&[u8]>
    ensures { option_map (λ rest. rest.now) result ≡ finding.behind_bytes count bytes.now }
{
    if count <= bytes.len() {
        Some(&bytes[count..])
    } else {
        None
    }
}
