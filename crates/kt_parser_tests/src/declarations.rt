//! Lists of tokens: files with how many declarations they have, and refusals with their place.

use kt_base::{Name, Pos};
use kt_parser_declarations::read_file;
use kt_parser_steps::{ParseError, Tokens};
use kt_tree::{Keyword, Number, Sign, Token, TokenKind};
use std::alloc::Global;
use std::test::Fail;

/// One letter a token: small letters are identifiers, `O` `A` `S` `D` `R` `N` `K` the words that are modifiers and
/// beginnings of declarations, `F` `C` `I` `V` `W` keywords.
fn kind_of(alloc: Global, letter: u8) -> Result<TokenKind, Fail> {
    Ok(match letter {
        b'a'..=b'z' => TokenKind::Identifier(Name::of(alloc, &[letter])?),
        b'O' => TokenKind::Identifier(Name::of(alloc, b"open")?),
        b'A' => TokenKind::Identifier(Name::of(alloc, b"abstract")?),
        b'S' => TokenKind::Identifier(Name::of(alloc, b"suspend")?),
        b'D' => TokenKind::Identifier(Name::of(alloc, b"data")?),
        b'R' => TokenKind::Identifier(Name::of(alloc, b"override")?),
        b'N' => TokenKind::Identifier(Name::of(alloc, b"enum")?),
        b'K' => TokenKind::Identifier(Name::of(alloc, b"const")?),
        b'F' => TokenKind::Keyword(Keyword::Fun),
        b'C' => TokenKind::Keyword(Keyword::Class),
        b'I' => TokenKind::Keyword(Keyword::Interface),
        b'V' => TokenKind::Keyword(Keyword::Val),
        b'W' => TokenKind::Keyword(Keyword::Var),
        b'0'..=b'9' => TokenKind::Number(Number {
            value: Some(1),
            long: false,
        }),
        b'"' => TokenKind::OpenQuote,
        b'\'' => TokenKind::CloseQuote,
        b'~' => TokenKind::Dollar,
        b',' => TokenKind::Sign(Sign::Comma),
        b'(' => TokenKind::Sign(Sign::OpenParenthesis),
        b')' => TokenKind::Sign(Sign::CloseParenthesis),
        b'{' => TokenKind::Sign(Sign::OpenBrace),
        b'}' => TokenKind::Sign(Sign::CloseBrace),
        b'<' => TokenKind::Sign(Sign::Less),
        b'>' => TokenKind::Sign(Sign::Greater),
        b':' => TokenKind::Sign(Sign::Colon),
        b';' => TokenKind::Sign(Sign::Semicolon),
        b'=' => TokenKind::Sign(Sign::Assign),
        b'-' => TokenKind::Sign(Sign::Minus),
        b'\n' => TokenKind::NewLine,
        _ => TokenKind::End,
    })
}

/// What a list of tokens reads as.
#[derive(Clone, Copy, Debug, PartialEq, Eq)]
enum Reading {
    /// A file, with so many declarations.
    Read(usize),
    /// The index of the furthest token that was examined.
    Refused(usize),
}

fn answer(alloc: Global, letters: &[u8]) -> Result<Reading, Fail> {
    let mut tokens = Vec::new(alloc);
    for letter in letters {
        tokens.push(Token {
            kind: kind_of(alloc, *letter)?,
            pos: Pos { line: 1, column: 1 },
        })?;
    }
    let mut cursor = Tokens::new(tokens.as_slice());
    match read_file(alloc, &mut cursor) {
        Ok(declarations) => Ok(Reading::Read(declarations.len())),
        Err(ParseError::Refused) => Ok(Reading::Refused(tokens.len().saturating_sub(cursor.far()))),
        Err(ParseError::NoMemory) => Err(Fail::from(std::alloc::AllocError)),
    }
}

/// Letters, and what their tokens read as.
type Row = (&'static str, Reading);

fn files() -> &'static [Row] {
    &[
        (".", Reading::Read(0)),
        ("AFf().", Reading::Read(1)),
        ("SAF<t,u:v>f(a:t,b:u<t>):v\nACc.", Reading::Read(2)),
        (
            "OCc<t>(Va:t,Wb:t,d:t):\na<t>,\nb{;AOFf()\n}.",
            Reading::Read(1),
        ),
        ("DCc\n{}.", Reading::Read(1)),
        ("Ii<t>:a,b<t>{Ff(a:t):t;SFg()};Ij.", Reading::Read(2)),
        ("NCe\n{\na\n,\nb\n}.", Reading::Read(1)),
        ("KVa:i=-1\nKVb=\n\"~~'\nKVc=1.", Reading::Read(3)),
        ("", Reading::Refused(0)),
        ("AAFf().", Reading::Refused(1)),
        ("AFf(a:t,).", Reading::Refused(8)),
        ("AFf()Cc.", Reading::Refused(5)),
        ("SCc.", Reading::Refused(1)),
        ("Cc{AF<t>f()}.", Reading::Refused(5)),
        ("Ii{Ff(){}}.", Reading::Refused(7)),
        ("NCe{}.", Reading::Refused(4)),
        ("KWa=1.", Reading::Refused(1)),
        ("KVa=b.", Reading::Refused(4)),
    ]
}

/// The first list that doesn't read as its row says, by its number.
fn wrong_file(alloc: Global) -> Result<Option<usize>, Fail> {
    for (number, row) in files().iter().enumerate() {
        let (letters, wanted) = *row;
        if answer(alloc, letters.as_bytes())? != wanted {
            return Ok(Some(number));
        }
    }
    Ok(None)
}

#[test]
fn files_read_as_their_rows(rt: HostRuntime) -> Result<(), Fail> {
    assert_eq!(rt; wrong_file(rt.alloc())?, None);
    Ok(())
}
