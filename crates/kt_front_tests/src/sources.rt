//! Texts through the lexer and the parser: sentences, and refusals at their places.

use crate::rows::{Row, rows_1, rows_2, rows_3, rows_4, rows_5, rows_6};
use kt_base::{FrontErr, Kind, Pos, Refusal};
use kt_parser::read_source;
use std::alloc::{AllocError, Global};
use std::test::Fail;

/// The refusal of a text, where it is refused.
fn refusal_of(alloc: Global, text: &[u8]) -> Result<Option<Refusal>, Fail> {
    match read_source(alloc, text) {
        Ok(_) => Ok(None),
        Err(FrontErr::Refused(refusal)) => Ok(Some(refusal)),
        Err(FrontErr::NoMemory) => Err(Fail::from(AllocError)),
    }
}

fn refused(kind: Kind, line: u32, column: u32) -> Option<Refusal> {
    Some(Refusal {
        kind,
        pos: Pos { line, column },
    })
}

/// The first text of the rows that isn't what its row says, by its number.
fn first_wrong(alloc: Global, rows: &[Row]) -> Result<Option<usize>, Fail> {
    for (number, row) in rows.iter().enumerate() {
        let (text, line, column) = *row;
        let wanted = if line == 0 {
            None
        } else {
            refused(Kind::Syntax, line, column)
        };
        if refusal_of(alloc, text.as_bytes())? != wanted {
            return Ok(Some(number));
        }
    }
    Ok(None)
}

#[test]
fn worked_texts(rt: HostRuntime) -> Result<(), Fail> {
    let alloc = rt.alloc();
    assert_eq!(rt; refusal_of(alloc, b"")?, None);
    assert_eq!(rt;
        refusal_of(alloc, b"fun main() { println(1 + ) }")?,
        refused(Kind::Syntax, 1, 26)
    );
    assert_eq!(rt;
        refusal_of(alloc, b"fun main() { # }")?,
        refused(Kind::Lex, 1, 14)
    );
    assert_eq!(rt;
        refusal_of(alloc, b"fun main() {\n  println(\"a${x}b\")\n}\n")?,
        None
    );
    assert_eq!(rt;
        refusal_of(alloc, b"fun main() {")?,
        refused(Kind::Syntax, 1, 13)
    );
    assert_eq!(rt; refusal_of(alloc, b"\xff")?, refused(Kind::Lex, 1, 1));
    Ok(())
}

#[test]
fn first_rows(rt: HostRuntime) -> Result<(), Fail> {
    let alloc = rt.alloc();
    assert_eq!(rt; first_wrong(alloc, rows_1())?, None);
    assert_eq!(rt; first_wrong(alloc, rows_2())?, None);
    assert_eq!(rt; first_wrong(alloc, rows_3())?, None);
    Ok(())
}

#[test]
fn last_rows(rt: HostRuntime) -> Result<(), Fail> {
    let alloc = rt.alloc();
    assert_eq!(rt; first_wrong(alloc, rows_4())?, None);
    assert_eq!(rt; first_wrong(alloc, rows_5())?, None);
    assert_eq!(rt; first_wrong(alloc, rows_6())?, None);
    Ok(())
}

/// A text: what stands before, a part so many times, and what stands behind.
fn repeated(
    alloc: Global,
    before: &[u8],
    part: &[u8],
    times: u32,
    behind: &[u8],
) -> Result<Vec<u8>, Fail> {
    let mut text = Vec::new(alloc);
    text.extend_from_slice(before)?;
    for _turn in 0..times {
        text.extend_from_slice(part)?;
    }
    text.extend_from_slice(behind)?;
    Ok(text)
}

#[test]
fn wide_texts(rt: HostRuntime) -> Result<(), Fail> {
    let alloc = rt.alloc();
    let functions = repeated(alloc, b"", b"fun f(){}\n", 100_000, b"")?;
    assert_eq!(rt; refusal_of(alloc, functions.as_slice())?, None);
    let statements = repeated(alloc, b"fun f(){", b"a\n", 100_000, b"}")?;
    assert_eq!(rt; refusal_of(alloc, statements.as_slice())?, None);
    Ok(())
}

#[test]
fn chains(rt: HostRuntime) -> Result<(), Fail> {
    let alloc = rt.alloc();
    let most = repeated(alloc, b"fun f()=", b"a+", 199, b"a")?;
    assert_eq!(rt;
        refusal_of(alloc, most.as_slice())?,
        refused(Kind::Syntax, 1, 8)
    );
    let whole = repeated(alloc, b"fun f():Int=", b"a+", 199, b"a")?;
    assert_eq!(rt; refusal_of(alloc, whole.as_slice())?, None);
    // The 200th operator has no room.
    let longer = repeated(alloc, b"fun f():Int=", b"a+", 201, b"a")?;
    assert_eq!(rt;
        refusal_of(alloc, longer.as_slice())?,
        refused(Kind::Syntax, 1, 412)
    );
    Ok(())
}

#[test]
fn deep_texts(rt: HostRuntime) -> Result<(), Fail> {
    let alloc = rt.alloc();
    let parentheses = repeated(alloc, b"fun f(){", b"(", 1_048_568, b"")?;
    assert_eq!(rt;
        refusal_of(alloc, parentheses.as_slice())?,
        refused(Kind::Syntax, 1, 208)
    );
    let braces = repeated(alloc, b"fun f(){a", b"{", 1_048_567, b"")?;
    assert_eq!(rt;
        refusal_of(alloc, braces.as_slice())?,
        refused(Kind::Syntax, 1, 11)
    );
    let lambdas = repeated(alloc, b"fun f(){", b"a{", 524_284, b"")?;
    assert_eq!(rt;
        refusal_of(alloc, lambdas.as_slice())?,
        refused(Kind::Syntax, 1, 209)
    );
    // 200 types fit in one another; the `<` behind the last is refused.
    let types = repeated(alloc, b"fun f(){", b"a<", 524_284, b"")?;
    assert_eq!(rt;
        refusal_of(alloc, types.as_slice())?,
        refused(Kind::Syntax, 1, 410)
    );
    Ok(())
}
