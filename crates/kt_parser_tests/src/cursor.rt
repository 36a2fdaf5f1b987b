//! Each call of the cursor once.

use kt_base::{Name, Pos};
use kt_parser_steps::Tokens;
use kt_tree::{Keyword, Sign, SoftKeyword, Token, TokenKind};
use std::alloc::Global;
use std::test::Fail;

fn at(kind: TokenKind) -> Token {
    Token {
        kind,
        pos: Pos { line: 1, column: 1 },
    }
}

/// `val until = ;` with line ends before and behind the `=`.
fn some_tokens(alloc: Global) -> Result<Vec<Token>, Fail> {
    let mut tokens = Vec::new(alloc);
    tokens.push(at(TokenKind::Keyword(Keyword::Val)))?;
    tokens.push(at(TokenKind::Identifier(Name::of(alloc, b"until")?)))?;
    tokens.push(at(TokenKind::NewLine))?;
    tokens.push(at(TokenKind::Sign(Sign::Assign)))?;
    tokens.push(at(TokenKind::NewLine))?;
    tokens.push(at(TokenKind::Sign(Sign::Semicolon)))?;
    tokens.push(at(TokenKind::End))?;
    Ok(tokens)
}

#[test]
fn the_cursor_walks(rt: HostRuntime) -> Result<(), Fail> {
    let tokens = some_tokens(rt.alloc())?;
    let mut cursor = Tokens::new(tokens.as_slice());
    assert_eq!(rt; cursor.turns(), 8);
    assert!(rt; cursor.take_keyword(Keyword::Val).is_some());
    let place = cursor.rest();
    assert!(rt; cursor.take_soft_keyword(SoftKeyword::Until).is_some());
    cursor.go_to(place);
    assert!(rt; cursor.take_identifier().is_some());
    cursor.skip_lines();
    assert!(rt; cursor.take_sign(Sign::Arrow).is_none());
    assert_eq!(rt; cursor.far(), 4);
    assert!(rt; cursor.take_sign(Sign::Assign).is_some());
    cursor.skip_separators();
    assert!(rt; cursor.take_identifier().is_none());
    let _refused = cursor.refuse();
    assert_eq!(rt; cursor.far(), 1);
    Ok(())
}
