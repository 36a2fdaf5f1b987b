//! Numbers and targets at the front of bytes, big-endian.

ghost use Rattle.std.specs.Prelude.{◌<◌, Ok};
ghost use Rattle.std.specs.Int.{w16, w32};
ghost use Rattle.jvm_code_instructions.specs.Reading.{Gives, byte_at, number_at, only_at, count_at, near_at, far_at, zeros_at};

use crate::fault::Fault;

pub fn byte_of(bytes: &[u8]) -> Result<(u8, &[u8]), Fault>
    ensures { Gives (λ x. (x.0, x.1.now)) result (byte_at bytes.now) }
{
    match bytes {
        [] => Err(Fault::Cut),
        [b, rest @ ..] => Ok((*b, rest)),
    }
}

pub fn u16_of(bytes: &[u8]) -> Result<(u16, &[u8]), Fault>
    ensures { Gives (λ x. (x.0, x.1.now)) result (number_at w16 bytes.now) }
{
    if bytes.len() < 2 {
        return Err(Fault::Cut);
    }
    let (front, rest) = bytes.split_at(2);
    let number = u16::from_be_bytes([front[0], front[1]]);
    Ok((number, rest))
}

pub fn u32_of(bytes: &[u8]) -> Result<(u32, &[u8]), Fault>
    ensures { Gives (λ x. (x.0, x.1.now)) result (number_at w32 bytes.now) }
{
    if bytes.len() < 4 {
        return Err(Fault::Cut);
    }
    let (front, rest) = bytes.split_at(4);
    let number = u32::from_be_bytes([front[0], front[1], front[2], front[3]]);
    Ok((number, rest))
}

/// A byte that has to be this one.
pub fn only_of(wanted: u8, bytes: &[u8]) -> Result<&[u8], Fault>
    ensures { Gives (λ x. x.now) result (only_at wanted bytes.now) }
{
    match bytes {
        [] => Err(Fault::Cut),
        [b, rest @ ..] => {
            if *b == wanted {
                Ok(rest)
            } else {
                Err(Fault::BadOpcode)
            }
        }
    }
}

/// A byte that must not be zero.
pub fn count_of(bytes: &[u8]) -> Result<(u8, &[u8]), Fault>
    ensures { Gives (λ x. (x.0, x.1.now)) result (count_at bytes.now) }
{
    match bytes {
        [] => Err(Fault::Cut),
        [n, rest @ ..] => {
            if *n == 0 {
                Err(Fault::BadOpcode)
            } else {
                Ok((*n, rest))
            }
        }
    }
}

/// A target by its distance in two bytes.
#[tactic(auto, unfolding(crate::specs::Reading::near_at))]
pub fn near_of(at: u32, bytes: &[u8]) -> Result<(u32, &[u8]), Fault>
    ensures { Gives (λ x. (x.0, x.1.now)) result (near_at at bytes.now) }
{
    let (distance, rest) = u16_of(bytes)?;
    Ok((at.wrapping_add_signed(distance.cast_signed() as i32), rest))
}

/// A target by its distance in four bytes.
#[tactic(auto, unfolding(crate::specs::Reading::far_at))]
pub fn far_of(at: u32, bytes: &[u8]) -> Result<(u32, &[u8]), Fault>
    ensures { Gives (λ x. (x.0, x.1.now)) result (far_at at bytes.now) }
{
    let (distance, rest) = u32_of(bytes)?;
    Ok((at.wrapping_add(distance), rest))
}

/// Bytes that have to be zero, as many as counted.
#[tactic(auto, unfolding(crate::specs::Reading::zeros_at))]
pub fn zeros_of(count: u32, bytes: &[u8]) -> Result<&[u8], Fault>
    ensures { Gives (λ x. x.now) result (zeros_at count bytes.now) }
{
    if count == 0 {
        return Ok(bytes);
    }
    let rest = only_of(0, bytes)?;
    zeros_of(count - 1, rest)
}
