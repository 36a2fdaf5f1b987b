//! Numbers.

ghost use Rattle.std.specs.Prelude.{◌≡◌, ◌≤◌, length};
ghost use Rattle.kt_lexer.specs.Lexemes as spec;
ghost use Rattle.kt_lexer.specs.Scanning as scanning;

use crate::characters::{CharacterClass, passed};
use crate::shapes::Shape;
use kt_tree::Number;

/// A number, where a digit stands first.
#[tactic(auto, unfolding(crate::specs::Scanning::number_at))]
pub fn number_at(chars: &[char]) -> (Shape, &[char])
    ensures { (result.0, result.1.now) ≡ scanning.number_at chars.now }
{
    let rest = behind_number(chars);
    numbered(value_of(passed(chars, rest)), rest)
}

/// What stands behind `0`, or behind digits.
fn behind_number(chars: &[char]) -> &[char]
    ensures rest { result.now ≡ scanning.behind_number chars.now }
    ensures shorter { length result.now ≤ length chars.now }
{
    match chars {
        ['0', rest @ ..] => rest,
        _ => CharacterClass::Digit.behind(chars),
    }
}

/// The number, long where an `L` follows.
fn numbered(value: Option<u64>, chars: &[char]) -> (Shape, &[char])
    ensures { (result.0, result.1.now) ≡ scanning.numbered value chars.now }
{
    match chars {
        ['L', rest @ ..] => (Shape::Number(Number { value, long: true }), rest),
        _ => (Shape::Number(Number { value, long: false }), chars),
    }
}

/// The number of these digits, where it is at most the greatest `Long`.
fn value_of(digits: &[char]) -> Option<u64>
    ensures { result ≡ spec.value_of digits.now }
{
    let mut value = 0u128;
    let mut rest = digits;
    while let [digit, behind @ ..] = rest {
        value = 10 * value + u128::from(u32::from(*digit).saturating_sub(u32::from('0')));
        if value > 0x7FFF_FFFF_FFFF_FFFF {
            return None;
        }
        rest = behind;
    }
    Some(value as u64)
}
