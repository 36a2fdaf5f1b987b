//! Lists of tokens: expressions and statements with how many tokens are left, and refusals with their place.

use kt_base::{Name, Pos};
use kt_grammar::Context;
use kt_parser_statements::{Precedence, read_expression, read_statement};
use kt_parser_steps::{ParseError, Tokens};
use kt_tree::{Keyword, Number, Sign, Token, TokenKind};
use std::alloc::Global;
use std::test::Fail;

/// One letter a token.
fn kind_of(alloc: Global, letter: u8) -> Result<TokenKind, Fail> {
    Ok(match letter {
        b'a'..=b'z' => TokenKind::Identifier(Name::of(alloc, &[letter])?),
        b'0'..=b'9' => TokenKind::Number(Number {
            value: Some(1),
            long: false,
        }),
        b'I' => TokenKind::Keyword(Keyword::If),
        b'E' => TokenKind::Keyword(Keyword::Else),
        b'W' => TokenKind::Keyword(Keyword::When),
        b'V' => TokenKind::Keyword(Keyword::Val),
        b'B' => TokenKind::Keyword(Keyword::Break),
        b'L' => TokenKind::Keyword(Keyword::While),
        b'R' => TokenKind::Keyword(Keyword::Return),
        b'T' => TokenKind::Keyword(Keyword::Try),
        b'X' => TokenKind::Keyword(Keyword::Throw),
        b'"' => TokenKind::OpenQuote,
        b'\'' => TokenKind::CloseQuote,
        b'$' => TokenKind::OpenTemplate,
        b'~' => TokenKind::Dollar,
        b',' => TokenKind::Sign(Sign::Comma),
        b'(' => TokenKind::Sign(Sign::OpenParenthesis),
        b')' => TokenKind::Sign(Sign::CloseParenthesis),
        b'{' => TokenKind::Sign(Sign::OpenBrace),
        b'}' => TokenKind::Sign(Sign::CloseBrace),
        b'[' => TokenKind::Sign(Sign::OpenBracket),
        b']' => TokenKind::Sign(Sign::CloseBracket),
        b'<' => TokenKind::Sign(Sign::Less),
        b'>' => TokenKind::Sign(Sign::Greater),
        b'?' => TokenKind::Sign(Sign::Elvis),
        b':' => TokenKind::Sign(Sign::Colon),
        b';' => TokenKind::Sign(Sign::Semicolon),
        b'@' => TokenKind::Sign(Sign::Arrow),
        b'.' => TokenKind::Sign(Sign::Dot),
        b'+' => TokenKind::Sign(Sign::Plus),
        b'-' => TokenKind::Sign(Sign::Minus),
        b'*' => TokenKind::Sign(Sign::Times),
        b'=' => TokenKind::Sign(Sign::Assign),
        b'|' => TokenKind::Sign(Sign::Disjunction),
        b'&' => TokenKind::Sign(Sign::Conjunction),
        b'!' => TokenKind::Sign(Sign::NotNull),
        b'\n' => TokenKind::NewLine,
        _ => TokenKind::End,
    })
}

/// What a list of tokens reads as, within 200 levels.
#[derive(Clone, Copy, Debug, PartialEq, Eq)]
enum Reading {
    /// A phrase, and the tokens that are left.
    Read(usize),
    /// The index of the furthest token that was examined.
    Refused(usize),
}

/// Letters, and what their tokens read as.
type Row = (&'static str, Reading);

/// Letters before parentheses, how many of them, what stands in them and behind them, and what their tokens read as.
type Nested = (&'static str, usize, &'static str, &'static str, Reading);

const OUTSIDE: Context = Context {
    in_loop: false,
    in_lambda: false,
};

fn tokens_of(alloc: Global, letters: &[u8]) -> Result<Vec<Token>, Fail> {
    let mut tokens = Vec::new(alloc);
    for letter in letters {
        tokens.push(Token {
            kind: kind_of(alloc, *letter)?,
            pos: Pos { line: 1, column: 1 },
        })?;
    }
    Ok(tokens)
}

fn expression(alloc: Global, letters: &[u8]) -> Result<Reading, Fail> {
    let tokens = tokens_of(alloc, letters)?;
    let mut cursor = Tokens::new(tokens.as_slice());
    match read_expression(alloc, 200, Precedence::Disjunction, OUTSIDE, &mut cursor) {
        Ok(_) => Ok(Reading::Read(cursor.rest().len())),
        Err(ParseError::Refused) => Ok(Reading::Refused(tokens.len().saturating_sub(cursor.far()))),
        Err(ParseError::NoMemory) => Err(Fail::from(std::alloc::AllocError)),
    }
}

fn statement(alloc: Global, letters: &[u8]) -> Result<Reading, Fail> {
    let tokens = tokens_of(alloc, letters)?;
    let mut cursor = Tokens::new(tokens.as_slice());
    match read_statement(alloc, 200, OUTSIDE, &mut cursor) {
        Ok(_) => Ok(Reading::Read(cursor.rest().len())),
        Err(ParseError::Refused) => Ok(Reading::Refused(tokens.len().saturating_sub(cursor.far()))),
        Err(ParseError::NoMemory) => Err(Fail::from(std::alloc::AllocError)),
    }
}

fn expressions() -> &'static [Row] {
    &[
        ("a+b*c|d&e", Reading::Read(0)),
        ("a.b(c,1)[d]!{x@y}", Reading::Read(0)),
        ("a<b>(c)", Reading::Read(0)),
        ("a<b", Reading::Read(0)),
        ("\"~$a}~'", Reading::Read(0)),
        ("I(a)b;Ec", Reading::Read(0)),
        ("W(a){1,2@b;E@{c\nd}}", Reading::Read(0)),
        ("a\n.b", Reading::Read(0)),
        ("a\nb", Reading::Read(2)),
        ("a(b,)", Reading::Refused(4)),
        ("a+", Reading::Refused(2)),
        ("(a", Reading::Refused(2)),
        ("B", Reading::Refused(0)),
        ("T{a}b", Reading::Refused(4)),
        ("R", Reading::Read(0)),
        ("R()", Reading::Refused(2)),
    ]
}

/// 200 levels, and 201: what follows is taken by its first token, also where it doesn't fit.
fn nestings() -> &'static [Nested] {
    &[
        ("R", 198, "a", "", Reading::Read(0)),
        ("R", 199, "a", "", Reading::Refused(199)),
        ("I(a)b(", 197, "a", ")", Reading::Read(0)),
        ("I(a)b(", 198, "a", ")", Reading::Refused(203)),
        ("Xb[", 197, "a", "]", Reading::Read(0)),
        ("Xb[", 198, "a", "]", Reading::Refused(200)),
        ("", 196, "I(a)bEb{c}", "", Reading::Read(0)),
        ("", 197, "I(a)bEb{c}", "", Reading::Refused(205)),
    ]
}

fn statements() -> &'static [Row] {
    &[
        ("Va:b=c", Reading::Read(0)),
        ("a=b", Reading::Read(0)),
        ("L(a){B}", Reading::Read(0)),
        ("{a}", Reading::Refused(0)),
    ]
}

fn push_letters(letters: &mut Vec<u8>, more: &[u8]) -> Result<(), Fail> {
    for letter in more {
        letters.push(*letter)?;
    }
    Ok(())
}

fn push_times(letters: &mut Vec<u8>, letter: u8, times: usize) -> Result<(), Fail> {
    for _ in 0..times {
        letters.push(letter)?;
    }
    Ok(())
}

fn nested_letters(alloc: Global, nested: &Nested) -> Result<Vec<u8>, Fail> {
    let (before, depth, inner, behind, _) = *nested;
    let mut letters = Vec::new(alloc);
    push_letters(&mut letters, before.as_bytes())?;
    push_times(&mut letters, b'(', depth)?;
    push_letters(&mut letters, inner.as_bytes())?;
    push_times(&mut letters, b')', depth)?;
    push_letters(&mut letters, behind.as_bytes())?;
    Ok(letters)
}

/// The first nesting that doesn't read as its row says, by its number.
fn wrong_nesting(alloc: Global) -> Result<Option<usize>, Fail> {
    for (number, row) in nestings().iter().enumerate() {
        let letters = nested_letters(alloc, row)?;
        if expression(alloc, letters.as_slice())? != row.4 {
            return Ok(Some(number));
        }
    }
    Ok(None)
}

/// The first expression that doesn't read as its row says, by its number.
fn wrong_expression(alloc: Global) -> Result<Option<usize>, Fail> {
    for (number, row) in expressions().iter().enumerate() {
        let (letters, wanted) = *row;
        if expression(alloc, letters.as_bytes())? != wanted {
            return Ok(Some(number));
        }
    }
    Ok(None)
}

/// The first statement that doesn't read as its row says, by its number.
fn wrong_statement(alloc: Global) -> Result<Option<usize>, Fail> {
    for (number, row) in statements().iter().enumerate() {
        let (letters, wanted) = *row;
        if statement(alloc, letters.as_bytes())? != wanted {
            return Ok(Some(number));
        }
    }
    Ok(None)
}

#[test]
fn expressions_read_as_their_rows(rt: HostRuntime) -> Result<(), Fail> {
    assert_eq!(rt; wrong_expression(rt.alloc())?, None);
    Ok(())
}

#[test]
fn statements_read_as_their_rows(rt: HostRuntime) -> Result<(), Fail> {
    assert_eq!(rt; wrong_statement(rt.alloc())?, None);
    Ok(())
}

#[test]
fn nestings_read_as_their_rows(rt: HostRuntime) -> Result<(), Fail> {
    assert_eq!(rt; wrong_nesting(rt.alloc())?, None);
    Ok(())
}
