//! Tokens made of the characters that spell them.

ghost use Rattle.std.specs.Prelude.{◌≡◌, drop, IfOk};
ghost use Rattle.kt_base.specs.Text.{utf16_of};
ghost use Rattle.kt_lexer.specs.Lexemes.{AllPass, is_word};
ghost use Rattle.kt_lexer.specs.Scanning as scanning;

use crate::shapes::Shape;
use kt_base::{Name, NoMemory, Text16};
use kt_tree::TokenKind;
use std::alloc::Global;

/// The token of this shape with these characters, and none for a blank.
pub fn kind_of(alloc: Global, shape: Shape, chars: &[char]) -> Result<Option<TokenKind>, NoMemory>
    requires { scanning.NamesAreWords (scanning.lexeme_of shape chars.now) }
    ensures { IfOk result (λ kind. scanning.lexeme_of_kind kind ≡ scanning.lexeme_of shape chars.now) }
{
    Ok(Some(match shape {
        Shape::Blank => return Ok(None),
        Shape::NewLine => TokenKind::NewLine,
        Shape::Name => TokenKind::Identifier(name_of(alloc, chars)?),
        Shape::Keyword(keyword) => TokenKind::Keyword(keyword),
        Shape::Number(number) => TokenKind::Number(number),
        Shape::Character(unit) => TokenKind::Character(unit),
        Shape::Sign(sign) => TokenKind::Sign(sign),
        Shape::OpenQuote => TokenKind::OpenQuote,
        Shape::CloseQuote => TokenKind::CloseQuote,
        Shape::Run => TokenKind::Run(text_of(alloc, chars)?),
        Shape::Escape(unit) => TokenKind::Escape(unit),
        Shape::NamePart => TokenKind::NamePart(name_of(alloc, behind_first(chars))?),
        Shape::ThisPart => TokenKind::ThisPart,
        Shape::OpenTemplate => TokenKind::OpenTemplate,
        Shape::Dollar => TokenKind::Dollar,
    }))
}

/// The characters behind the first.
fn behind_first(chars: &[char]) -> &[char]
    ensures { result.now ≡ drop 1 chars.now }
{
    match chars {
        [_, rest @ ..] => rest,
        [] => chars,
    }
}

/// The name that these characters spell.
fn name_of(alloc: Global, word: &[char]) -> Result<Name, NoMemory>
    requires { AllPass is_word word.now }
    ensures { IfOk result (λ name. name ≡ word.now) }
{
    let mut bytes = Vec::new(alloc);
    let mut rest = word;
    while let [next, behind @ ..] = rest {
        bytes.push(u32::from(*next) as u8)?;
        rest = behind;
    }
    Name::of(alloc, bytes.as_slice())
}

/// The code units of these characters.
fn text_of(alloc: Global, chars: &[char]) -> Result<Text16, NoMemory>
    ensures { IfOk result (λ text. text ≡ utf16_of chars.now) }
{
    let mut units = Vec::new(alloc);
    let mut rest = chars;
    while let [next, behind @ ..] = rest {
        units.extend_from_slice(next.encode_utf16(&mut [0; 2]))?;
        rest = behind;
    }
    Ok(Text16::from_units(units))
}
