//! Character literals and escapes.

ghost use Rattle.std.specs.Prelude.{◌≡◌, ◌<◌, IsTrue};
ghost use Rattle.std.specs.Option.{option_map};
ghost use Rattle.kt_lexer.specs.Lexemes as spec;
ghost use Rattle.kt_lexer.specs.Scanning as scanning;

use crate::characters::{is_digit, is_hexadecimal, is_plain};
use crate::shapes::Shape;

/// A character literal whose opening `'` has been read.
#[tactic(auto, unfolding(crate::specs::Scanning::character_at))]
pub fn character_at(chars: &[char]) -> Option<(Shape, &[char])>
    ensures { option_map (λ found. (found.0, found.1.now)) result ≡ scanning.character_at chars.now }
{
    let [first, rest @ ..] = chars else {
        return None;
    };
    if is_plain(*first) {
        closed_character(u32::from(*first) as u16, rest)
    } else if *first == '\\' {
        match escape_at(rest) {
            Some((unit, behind)) => closed_character(unit, behind),
            None => None,
        }
    } else {
        None
    }
}

/// The character, where the closing `'` follows.
fn closed_character(unit: u16, chars: &[char]) -> Option<(Shape, &[char])>
    ensures { option_map (λ found. (found.0, found.1.now)) result ≡ scanning.closed_character unit chars.now }
{
    match chars {
        ['\'', rest @ ..] => Some((Shape::Character(unit), rest)),
        _ => None,
    }
}

/// An escape whose `\` has been read: its code unit, and what stands behind it.
#[tactic(auto, unfolding(crate::specs::Scanning::escape_at))]
pub fn escape_at(chars: &[char]) -> Option<(u16, &[char])>
    ensures { option_map (λ found. (found.0, found.1.now)) result ≡ scanning.escape_at chars.now }
{
    let [first, rest @ ..] = chars else {
        return None;
    };
    if *first == 'u' {
        four_digits(rest)
    } else {
        match simple_escape(*first) {
            Some(unit) => Some((unit, rest)),
            None => None,
        }
    }
}

/// What `\` and this character stand for.
#[tactic(auto, unfolding(crate::specs::Scanning::simple_escape))]
fn simple_escape(c: char) -> Option<u16>
    ensures { result ≡ scanning.simple_escape c }
{
    match c {
        't' => Some(9),
        'b' => Some(8),
        'n' => Some(10),
        'r' => Some(13),
        '\'' => Some(39),
        '"' => Some(34),
        '\\' => Some(92),
        '$' => Some(36),
        _ => None,
    }
}

/// Four hexadecimal digits.
#[tactic(auto, unfolding(crate::specs::Scanning::four_digits))]
fn four_digits(chars: &[char]) -> Option<(u16, &[char])>
    ensures { option_map (λ found. (found.0, found.1.now)) result ≡ scanning.four_digits chars.now }
{
    let [a, b, c, d, rest @ ..] = chars else {
        return None;
    };
    if is_hexadecimal(*a) && is_hexadecimal(*b) && is_hexadecimal(*c) && is_hexadecimal(*d) {
        Some((unit_of(*a, *b, *c, *d), rest))
    } else {
        None
    }
}

/// The code unit of four hexadecimal digits.
fn unit_of(a: char, b: char, c: char, d: char) -> u16
    requires first { IsTrue (spec.is_hexadecimal a) }
    requires second { IsTrue (spec.is_hexadecimal b) }
    requires third { IsTrue (spec.is_hexadecimal c) }
    requires fourth { IsTrue (spec.is_hexadecimal d) }
    ensures { result ≡ scanning.unit_of a b c d }
{
    4096 * hexadecimal(a) + 256 * hexadecimal(b) + 16 * hexadecimal(c) + hexadecimal(d)
}

/// The value of a hexadecimal digit.
fn hexadecimal(c: char) -> u16
    requires { IsTrue (spec.is_hexadecimal c) }
    ensures value { result ≡ spec.hexadecimal c }
    ensures small { result < 16 }
{
    let code = u32::from(c) as u16;
    if is_digit(c) {
        code - 48
    } else if code >= 97 {
        code - 87
    } else {
        code - 55
    }
}
