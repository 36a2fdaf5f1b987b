//! The lexeme at the front of a text.

ghost use Rattle.std.specs.Prelude.{◌≡◌};
ghost use Rattle.std.specs.Option.{option_map};
ghost use Rattle.kt_lexer.specs.Scanning as scanning;

use crate::characters::{CharacterClass, is_digit, is_letter, passed};
use crate::literals::{character_at, escape_at};
use crate::numbers::number_at;
use crate::shapes::Shape;
use crate::signs::{exclamation_at, sign_at, slash_at};
use crate::words::{keyword_of, word_at};
use kt_tree::Keyword;
use kt_tree::tokens::same_keyword;

/// The lexeme at the front of a text, within a string or not, and the characters behind it.
pub fn shape_at(within: bool, chars: &[char]) -> Option<(Shape, &[char])>
    ensures { option_map (λ found. (found.0, found.1.now)) result ≡ scanning.shape_at within chars.now }
{
    if within {
        string_part_at(chars)
    } else {
        ordinary_at(chars)
    }
}

/// What stands at the front outside of strings.
#[tactic(auto, unfolding(crate::specs::Scanning::ordinary_at))]
fn ordinary_at(chars: &[char]) -> Option<(Shape, &[char])>
    ensures { option_map (λ found. (found.0, found.1.now)) result ≡ scanning.ordinary_at chars.now }
{
    let [first, rest @ ..] = chars else {
        return None;
    };
    let first = *first;
    if is_letter(first) {
        Some(word_at(chars))
    } else if is_digit(first) {
        Some(number_at(chars))
    } else if first == ' ' || first == '\t' {
        Some((Shape::Blank, rest))
    } else if first == '\n' {
        Some((Shape::NewLine, rest))
    } else if first == '\r' {
        line_feed_at(rest)
    } else if first == '"' {
        Some((Shape::OpenQuote, rest))
    } else if first == '\'' {
        character_at(rest)
    } else if first == '/' {
        slash_at(rest)
    } else if first == '!' {
        exclamation_at(rest)
    } else {
        sign_at(first, rest)
    }
}

/// The end of a line whose carriage return has been read.
fn line_feed_at(chars: &[char]) -> Option<(Shape, &[char])>
    ensures { option_map (λ found. (found.0, found.1.now)) result ≡ scanning.line_feed_at chars.now }
{
    match chars {
        ['\n', rest @ ..] => Some((Shape::NewLine, rest)),
        _ => None,
    }
}

/// What stands at the front within a string.
#[tactic(auto, unfolding(crate::specs::Scanning::string_part_at))]
fn string_part_at(chars: &[char]) -> Option<(Shape, &[char])>
    ensures { option_map (λ found. (found.0, found.1.now)) result ≡ scanning.string_part_at chars.now }
{
    let [first, rest @ ..] = chars else {
        return None;
    };
    let first = *first;
    if CharacterClass::Run.contains(first) {
        Some((Shape::Run, CharacterClass::Run.behind(rest)))
    } else if first == '"' {
        Some((Shape::CloseQuote, rest))
    } else if first == '$' {
        Some(dollar_at(rest))
    } else if first == '\\' {
        match escape_at(rest) {
            Some((unit, behind)) => Some((Shape::Escape(unit), behind)),
            None => None,
        }
    } else {
        None
    }
}

/// What begins with a `$` that has been read.
#[tactic(auto, unfolding(crate::specs::Scanning::dollar_at))]
fn dollar_at(chars: &[char]) -> (Shape, &[char])
    ensures { (result.0, result.1.now) ≡ scanning.dollar_at chars.now }
{
    match chars {
        [first, ..] if is_letter(*first) => part_at(chars),
        ['{', rest @ ..] => (Shape::OpenTemplate, rest),
        _ => (Shape::Dollar, chars),
    }
}

/// The word behind a `$`: a name or `this`, else the `$` stands alone.
fn part_at(chars: &[char]) -> (Shape, &[char])
    ensures { (result.0, result.1.now) ≡ scanning.part_at chars.now }
{
    let rest = CharacterClass::Word.behind(chars);
    match keyword_of(passed(chars, rest)) {
        None => (Shape::NamePart, rest),
        Some(keyword) if same_keyword(keyword, Keyword::This) => (Shape::ThisPart, rest),
        Some(_) => (Shape::Dollar, chars),
    }
}
