//! Words: keywords and names.

ghost use Rattle.std.specs.Prelude.{◌≡◌};
ghost use Rattle.std.specs.Option.{option_map};
ghost use Rattle.kt_lexer.specs.Lexemes as spec;
ghost use Rattle.kt_lexer.specs.Scanning as scanning;

use crate::characters::{CharacterClass, passed};
use crate::shapes::Shape;
use kt_tree::{Keyword, Sign};

/// All keywords.
#[tactic(auto, unfolding(crate::specs::Scanning::keywords))]
fn keywords() -> &'static [Keyword]
    ensures { result.now ≡ scanning.keywords }
{
    &[
        Keyword::As,
        Keyword::Break,
        Keyword::Class,
        Keyword::Continue,
        Keyword::Do,
        Keyword::Else,
        Keyword::False,
        Keyword::For,
        Keyword::Fun,
        Keyword::If,
        Keyword::In,
        Keyword::Interface,
        Keyword::Is,
        Keyword::Null,
        Keyword::Object,
        Keyword::Package,
        Keyword::Return,
        Keyword::Super,
        Keyword::This,
        Keyword::Throw,
        Keyword::True,
        Keyword::Try,
        Keyword::TypeAlias,
        Keyword::TypeOf,
        Keyword::Val,
        Keyword::Var,
        Keyword::When,
        Keyword::While,
    ]
}

/// How a keyword is written.
pub fn keyword_text(keyword: Keyword) -> &'static [char]
    ensures { result.now ≡ spec.keyword_text keyword }
{
    match keyword {
        Keyword::As => &['a', 's'],
        Keyword::Break => &['b', 'r', 'e', 'a', 'k'],
        Keyword::Class => &['c', 'l', 'a', 's', 's'],
        Keyword::Continue => &['c', 'o', 'n', 't', 'i', 'n', 'u', 'e'],
        Keyword::Do => &['d', 'o'],
        Keyword::Else => &['e', 'l', 's', 'e'],
        Keyword::False => &['f', 'a', 'l', 's', 'e'],
        Keyword::For => &['f', 'o', 'r'],
        Keyword::Fun => &['f', 'u', 'n'],
        Keyword::If => &['i', 'f'],
        Keyword::In => &['i', 'n'],
        Keyword::Interface => &['i', 'n', 't', 'e', 'r', 'f', 'a', 'c', 'e'],
        Keyword::Is => &['i', 's'],
        Keyword::Null => &['n', 'u', 'l', 'l'],
        Keyword::Object => &['o', 'b', 'j', 'e', 'c', 't'],
        Keyword::Package => &['p', 'a', 'c', 'k', 'a', 'g', 'e'],
        Keyword::Return => &['r', 'e', 't', 'u', 'r', 'n'],
        Keyword::Super => &['s', 'u', 'p', 'e', 'r'],
        Keyword::This => &['t', 'h', 'i', 's'],
        Keyword::Throw => &['t', 'h', 'r', 'o', 'w'],
        Keyword::True => &['t', 'r', 'u', 'e'],
        Keyword::Try => &['t', 'r', 'y'],
        Keyword::TypeAlias => &['t', 'y', 'p', 'e', 'a', 'l', 'i', 'a', 's'],
        Keyword::TypeOf => &['t', 'y', 'p', 'e', 'o', 'f'],
        Keyword::Val => &['v', 'a', 'l'],
        Keyword::Var => &['v', 'a', 'r'],
        Keyword::When => &['w', 'h', 'e', 'n'],
        Keyword::While => &['w', 'h', 'i', 'l', 'e'],
    }
}

/// The keyword that is written so.
#[tactic(auto, unfolding(crate::specs::Scanning::keyword_of))]
pub fn keyword_of(text: &[char]) -> Option<Keyword>
    ensures { result ≡ scanning.keyword_of text.now }
{
    keywords()
        .iter()
        .find(|keyword| keyword_text(**keyword) == text)
        .copied()
}

/// `as?`, a keyword or a name, where a letter stands first.
#[tactic(auto, unfolding(crate::specs::Scanning::word_at))]
pub fn word_at(chars: &[char]) -> (Shape, &[char])
    ensures { (result.0, result.1.now) ≡ scanning.word_at chars.now }
{
    match behind_safe_as(chars) {
        Some(rest) => (Shape::Sign(Sign::SafeAs), rest),
        None => {
            let rest = CharacterClass::Word.behind(chars);
            (word_shape(keyword_of(passed(chars, rest))), rest)
        }
    }
}

/// What stands behind `as?`.
fn behind_safe_as(chars: &[char]) -> Option<&[char]>
    ensures { option_map (λ rest. rest.now) result ≡ scanning.behind_safe_as chars.now }
{
    match chars {
        ['a', 's', '?', rest @ ..] => Some(rest),
        _ => None,
    }
}

/// A keyword, or a name where there is none.
fn word_shape(keyword: Option<Keyword>) -> Shape
    ensures { result ≡ scanning.word_shape keyword }
{
    match keyword {
        Some(keyword) => Shape::Keyword(keyword),
        None => Shape::Name,
    }
}
