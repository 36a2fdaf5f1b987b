//! Lists of tokens: types with what they are, and refusals with their place.

use kt_base::{Name, Pos};
use kt_parser_steps::{ParseError, Tokens};
use kt_parser_types::read_type;
use kt_tree::{Sign, Token, TokenKind};
use std::alloc::Global;
use std::test::Fail;

/// One letter a token: `i` an identifier, `s` the name `suspend`, `,` `(` `)` `<` `>` `?` these signs, `-` the arrow.
fn kind_of(alloc: Global, letter: u8) -> Result<TokenKind, Fail> {
    Ok(match letter {
        b'i' => TokenKind::Identifier(Name::of(alloc, b"Int")?),
        b's' => TokenKind::Identifier(Name::of(alloc, b"suspend")?),
        b',' => TokenKind::Sign(Sign::Comma),
        b'(' => TokenKind::Sign(Sign::OpenParenthesis),
        b')' => TokenKind::Sign(Sign::CloseParenthesis),
        b'<' => TokenKind::Sign(Sign::Less),
        b'>' => TokenKind::Sign(Sign::Greater),
        b'?' => TokenKind::Sign(Sign::Question),
        b'-' => TokenKind::Sign(Sign::Arrow),
        _ => TokenKind::End,
    })
}

/// What a list of tokens reads as, within 200 levels.
#[derive(Clone, Copy, Debug, PartialEq, Eq)]
enum Reading {
    /// A type, and the tokens that are left.
    Read(usize),
    /// The index of the furthest token that was examined.
    Refused(usize),
}

fn answer(alloc: Global, letters: &[u8]) -> Result<Reading, Fail> {
    let mut tokens = Vec::new(alloc);
    for letter in letters {
        tokens.push(Token {
            kind: kind_of(alloc, *letter)?,
            pos: Pos { line: 1, column: 1 },
        })?;
    }
    let mut cursor = Tokens::new(tokens.as_slice());
    match read_type(alloc, 200, &mut cursor) {
        Ok(_) => Ok(Reading::Read(cursor.rest().len())),
        Err(ParseError::Refused) => Ok(Reading::Refused(tokens.len().saturating_sub(cursor.far()))),
        Err(ParseError::NoMemory) => Err(Fail::from(std::alloc::AllocError)),
    }
}

/// Letters, and what their tokens read as.
type Row = (&'static str, Reading);

fn types() -> &'static [Row] {
    &[
        ("i", Reading::Read(0)),
        ("i?", Reading::Read(0)),
        ("i<i,i<i?>>?", Reading::Read(0)),
        ("()-i", Reading::Read(0)),
        ("(i,i)-i?", Reading::Read(0)),
        ("s(i)-i", Reading::Read(0)),
        ("s", Reading::Read(0)),
        ("((i)-i)?", Reading::Read(0)),
        ("i<i", Reading::Read(2)),
        ("(i)-(i)-i", Reading::Read(0)),
        ("", Reading::Refused(0)),
        ("?", Reading::Refused(0)),
        ("()", Reading::Refused(2)),
        ("(i,i)", Reading::Refused(5)),
        ("(i,)-i", Reading::Refused(3)),
        ("(i", Reading::Refused(2)),
        ("s(i)", Reading::Refused(4)),
        ("(i<i", Reading::Refused(4)),
        ("(i)-", Reading::Refused(4)),
    ]
}

/// The first list that doesn't read as its row says, by its number.
fn wrong_type(alloc: Global) -> Result<Option<usize>, Fail> {
    for (number, row) in types().iter().enumerate() {
        let (letters, wanted) = *row;
        if answer(alloc, letters.as_bytes())? != wanted {
            return Ok(Some(number));
        }
    }
    Ok(None)
}

#[test]
fn types_read_as_their_rows(rt: HostRuntime) -> Result<(), Fail> {
    assert_eq!(rt; wrong_type(rt.alloc())?, None);
    Ok(())
}
