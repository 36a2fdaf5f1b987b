//! Signs and comments, each the longest that is there.

ghost use Rattle.std.specs.Prelude.{◌≡◌};
ghost use Rattle.std.specs.Option.{option_map};
ghost use Rattle.kt_lexer.specs.Scanning as scanning;

use crate::characters::CharacterClass;
use crate::comments::{comment_rest, line_rest};
use crate::shapes::Shape;
use kt_tree::Sign;

/// The longest sign that begins with this character.
#[tactic(auto, unfolding(crate::specs::Scanning::sign_at))]
pub fn sign_at(first: char, chars: &[char]) -> Option<(Shape, &[char])>
    ensures { option_map (λ found. (found.0, found.1.now)) result ≡ scanning.sign_at first chars.now }
{
    let [second, rest @ ..] = chars else {
        return single_at(first, chars);
    };
    match double_sign(first, *second) {
        Some(sign) => Some((Shape::Sign(sign), rest)),
        None => single_at(first, chars),
    }
}

/// A sign of this character alone.
fn single_at(first: char, chars: &[char]) -> Option<(Shape, &[char])>
    ensures { option_map (λ found. (found.0, found.1.now)) result ≡ scanning.single_at
        (scanning.single_sign first) chars.now }
{
    match single_sign(first) {
        Some(sign) => Some((Shape::Sign(sign), chars)),
        None => None,
    }
}

/// A comment or a sign whose first `/` has been read.
#[tactic(auto, unfolding(crate::specs::Scanning::slash_at))]
pub fn slash_at(chars: &[char]) -> Option<(Shape, &[char])>
    ensures { option_map (λ found. (found.0, found.1.now)) result ≡ scanning.slash_at chars.now }
{
    match chars {
        ['/', rest @ ..] => Some((Shape::Blank, line_rest(rest))),
        ['*', rest @ ..] => match comment_rest(rest) {
            Some(behind) => Some((Shape::Blank, behind)),
            None => None,
        },
        _ => sign_at('/', chars),
    }
}

/// A sign whose first `!` has been read.
#[tactic(auto, unfolding(crate::specs::Scanning::exclamation_at))]
pub fn exclamation_at(chars: &[char]) -> Option<(Shape, &[char])>
    ensures { option_map (λ found. (found.0, found.1.now)) result ≡ scanning.exclamation_at chars.now }
{
    match behind_is(chars) {
        Some(rest) => Some((Shape::Sign(Sign::NotIs), rest)),
        None => sign_at('!', chars),
    }
}

/// What stands behind `is`, where no letter, digit or `_` follows.
fn behind_is(chars: &[char]) -> Option<&[char]>
    ensures { option_map (λ rest. rest.now) result ≡ scanning.behind_is chars.now }
{
    match chars {
        ['i', 's'] => Some(&[]),
        ['i', 's', rest @ ..] if !CharacterClass::Word.contains(rest[0]) => Some(rest),
        _ => None,
    }
}

/// The sign of these two characters.
#[tactic(auto, unfolding(crate::specs::Scanning::double_sign))]
fn double_sign(first: char, second: char) -> Option<Sign>
    ensures { result ≡ scanning.double_sign first second }
{
    match (first, second) {
        ('+', '+') => Some(Sign::Increment),
        ('+', '=') => Some(Sign::PlusAssign),
        ('-', '-') => Some(Sign::Decrement),
        ('-', '=') => Some(Sign::MinusAssign),
        ('-', '>') => Some(Sign::Arrow),
        ('!', '=') => Some(Sign::NotEqual),
        ('!', '!') => Some(Sign::NotNull),
        ('?', '.') => Some(Sign::SafeDot),
        ('?', ':') => Some(Sign::Elvis),
        ('*', '=') => Some(Sign::TimesAssign),
        ('/', '=') => Some(Sign::DivideAssign),
        ('%', '=') => Some(Sign::RemainderAssign),
        ('=', '=') => Some(Sign::Equal),
        ('<', '=') => Some(Sign::LessOrEqual),
        ('>', '=') => Some(Sign::GreaterOrEqual),
        ('&', '&') => Some(Sign::Conjunction),
        ('|', '|') => Some(Sign::Disjunction),
        ('.', '.') => Some(Sign::Range),
        _ => None,
    }
}

/// The sign of this character.
#[tactic(auto, unfolding(crate::specs::Scanning::single_sign))]
fn single_sign(c: char) -> Option<Sign>
    ensures { result ≡ scanning.single_sign c }
{
    match c {
        '(' => Some(Sign::OpenParenthesis),
        ')' => Some(Sign::CloseParenthesis),
        '[' => Some(Sign::OpenBracket),
        ']' => Some(Sign::CloseBracket),
        '{' => Some(Sign::OpenBrace),
        '}' => Some(Sign::CloseBrace),
        '.' => Some(Sign::Dot),
        ',' => Some(Sign::Comma),
        ':' => Some(Sign::Colon),
        ';' => Some(Sign::Semicolon),
        '=' => Some(Sign::Assign),
        '+' => Some(Sign::Plus),
        '-' => Some(Sign::Minus),
        '*' => Some(Sign::Times),
        '/' => Some(Sign::Divide),
        '%' => Some(Sign::Remainder),
        '<' => Some(Sign::Less),
        '>' => Some(Sign::Greater),
        '!' => Some(Sign::Not),
        '?' => Some(Sign::Question),
        _ => None,
    }
}
