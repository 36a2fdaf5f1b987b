//! Names, and refusals as the program prints them.

use kt_base::{FrontErr, Kind, Name, NoMemory, Pos, Refusal};
use std::alloc::Global;
use std::test::Fail;

/// The name that these bytes spell, which are ASCII.
fn name(alloc: Global, bytes: &str) -> Result<Name, Fail> {
    if !bytes.is_ascii() {
        return Err(Fail::from("not ASCII"));
    }
    Ok(Name::of(alloc, bytes.as_bytes())?)
}

#[test]
fn names_and_their_copies(rt: HostRuntime) -> Result<(), Fail> {
    for bytes in ["", "java/lang/String", "MainKt$L1", "\0 \u{7F}"] {
        let copy = name(rt.alloc(), bytes)?.clone()?;
        assert_eq!(rt; copy.as_bytes(), bytes.as_bytes());
    }
    Ok(())
}

/// A refusal of each stage, and its printed form.
fn refusals() -> [(Kind, u32, u32, &'static str); 5] {
    [
        (Kind::Lex, 1, 1, "1:1: Lex"),
        (Kind::Syntax, 1, 26, "1:26: Syntax"),
        (Kind::Typing, 3, 5, "3:5: Type"),
        (Kind::Share, 4294967295, 7, "4294967295:7: Share"),
        (Kind::Size, 1, 4294967295, "1:4294967295: Size"),
    ]
}

#[test]
fn printed_refusals(rt: HostRuntime) -> Result<(), Fail> {
    for (kind, line, column, printed) in refusals() {
        let pos = Pos { line, column };
        let error = FrontErr::Refused(Refusal { kind, pos });
        assert_eq!(rt; error.to_string(rt.alloc())?.as_str(), printed);
    }
    let error = FrontErr::from(NoMemory);
    assert_eq!(rt; error.to_string(rt.alloc())?.as_str(), "out of memory");
    Ok(())
}
