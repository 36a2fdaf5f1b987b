//! Whole code: what it is decoded as, how far its jumps reach, and what is no code.

ghost use Rattle.std.specs.Prelude.{◌<◌, ◌^◌, length};

use jvm_code::{CodeErr, Instr, LookupSwitch, TableSwitch, decode, encode, laid};
use std::alloc::{AllocError, Global};
use std::process::Abort;
use std::test::*;

/// What the bytes are decoded as; where that is code, it is laid and encoded as the same bytes.
fn told(alloc: Global, bytes: &[u8]) -> Result<String, Fail>
    requires { length bytes.now < 2 ^ 32 }
{
    match decode(alloc, bytes) {
        Err(error) => Ok(format!(in alloc; "{error:?}")?),
        Ok(code) => {
            let laid = laid(&code);
            let same = encode(alloc, &code)?.as_slice() == bytes;
            if laid && same {
                Ok(format!(in alloc; "{code:?}")?)
            } else {
                Ok(format!(in alloc; "{laid} {same}")?)
            }
        }
    }
}

/// Asserts what each line of a table is decoded as.
fn assert_told(
    rt: &impl Abort,
    alloc: Global,
    table: &[(&'static [u8], &'static str)],
) -> Result<(), Fail> {
    for (bytes, want) in table {
        assert!(rt; bytes.len() < 1000);
        let text = told(alloc, bytes)?;
        assert_eq!(rt; text.as_str(), *want, "of {bytes:?}");
    }
    Ok(())
}

/// Bytes that are code.
fn code() -> [(&'static [u8], &'static str); 5] {
    [
        (b"", "[]"),
        (
            b"\xa7\x00\x03\xb1",
            "[(0, Goto { target: 3 }), (3, Return(Return))]",
        ),
        (
            b"\x03\xa7\xff\xff",
            "[(0, Iconst(Iconst0)), (1, Goto { target: 0 })]",
        ),
        (
            b"\x03\x03\xaa\x00\x00\x00\x00\x00\x00\x00\x00\x00\x00\x00\x00\x00\xff\xff\xff\xff",
            "[(0, Iconst(Iconst0)), (1, Iconst(Iconst0)), (2, TableSwitch(TableSwitch { default: 2, low: 0, targets: [1] }))]",
        ),
        (
            b"\x03\xab\x00\x00\x00\x00\x00\x00\x00\x00\x00\x00\xb1",
            "[(0, Iconst(Iconst0)), (1, LookupSwitch(LookupSwitch { default: 1, pairs: [] })), (12, Return(Return))]",
        ),
    ]
}

/// Bytes that are no code.
fn no_code() -> [(&'static [u8], &'static str); 21] {
    [
        (b"\xa7\x00\x01\xb1", "BadTarget { offset: 0 }"),
        (b"\xa7\x00\x04\xb1", "BadTarget { offset: 0 }"),
        (b"\xa7\xff\xff\xb1", "BadTarget { offset: 0 }"),
        (b"\xc8\x00\x00\x00\x01", "BadTarget { offset: 0 }"),
        (b"\xc8\x00\x00", "Cut { offset: 0 }"),
        (b"\xb1\xff", "BadOpcode { offset: 1 }"),
        (b"\xb1\x10", "Cut { offset: 1 }"),
        (b"\xa7\x00\x01\xff", "BadOpcode { offset: 3 }"),
        (b"\x00", "BadOpcode { offset: 0 }"),
        (b"\x12\x01", "BadOpcode { offset: 0 }"),
        (b"\xba\x00\x01\x00\x00", "BadOpcode { offset: 0 }"),
        (b"\xbc", "Cut { offset: 0 }"),
        (b"\xbc\x0b", "BadOpcode { offset: 0 }"),
        (b"\xb9\x00\x01", "Cut { offset: 0 }"),
        (b"\xb9\x00\x01\x00", "BadOpcode { offset: 0 }"),
        (b"\xb9\x00\x01\x01", "Cut { offset: 0 }"),
        (b"\xb9\x00\x01\x01\x01", "BadOpcode { offset: 0 }"),
        (b"\xc4", "Cut { offset: 0 }"),
        (b"\xc4\x60", "BadOpcode { offset: 0 }"),
        (b"\xc4\x15\x00", "Cut { offset: 0 }"),
        (b"\xc4\x84\x00\x01\x00", "Cut { offset: 0 }"),
    ]
}

/// Bytes that are no code, with switches: among them huge tables and huge counts in few bytes.
fn no_switches() -> [(&'static [u8], &'static str); 10] {
    [
        (b"\x03\xaa\x00", "Cut { offset: 1 }"),
        (b"\x03\xaa\x00\x01", "BadOpcode { offset: 1 }"),
        (
            b"\xaa\x00\x00\x00\x00\x00\x00\x00\x00\x00\x00\x01\x00\x00\x00\x00",
            "BadOpcode { offset: 0 }",
        ),
        (
            b"\xaa\x00\x00\x00\x00\x00\x00\x00\x80\x00\x00\x00\x7f\xff\xff\xff",
            "Cut { offset: 0 }",
        ),
        (
            b"\xab\x00\x00\x00\x00\x00\x00\x00\xff\xff\xff\xff",
            "BadOpcode { offset: 0 }",
        ),
        (
            b"\xab\x00\x00\x00\x00\x00\x00\x00\x7f\xff\xff\xff",
            "Cut { offset: 0 }",
        ),
        (
            b"\xab\x00\x00\x00\x00\x00\x00\x00\x00\x00\x00\x02\x7f\xff\xff\xff\x00\x00\x00\x00",
            "Cut { offset: 0 }",
        ),
        (
            b"\xab\x00\x00\x00\x00\x00\x00\x00\x00\x00\x00\x02\x00\x00\x00\x01\x00\x00\x00\x00\x00\x00\x00\x01",
            "BadOpcode { offset: 0 }",
        ),
        (
            b"\xab\x00\x00\x00\x00\x00\x00\x00\x00\x00\x00\x01\x00\x00\x00\x05\x00\x00\x00\x01",
            "BadTarget { offset: 0 }",
        ),
        (
            b"\xaa\x00\x00\x00\x00\x00\x00\x00\x00\x00\x00\x00\x00\x00\x00\x00\x00\x00\x00\x04",
            "BadTarget { offset: 0 }",
        ),
    ]
}

#[test]
fn decoded(rt: HostRuntime) -> Result<(), Fail> {
    assert_told(&rt, rt.alloc(), &code())?;
    assert_told(&rt, rt.alloc(), &no_code())?;
    assert_told(&rt, rt.alloc(), &no_switches())
}

/// A jump at the front to `target`, and instructions of one byte up to it and behind.
fn jump_to(alloc: Global, target: u32) -> Result<Vec<(u32, Instr)>, AllocError> {
    let mut code = Vec::new(alloc);
    code.push((0, Instr::Goto { target }))?;
    for at in 3..40000u32 {
        code.push((at, Instr::Lcmp))?;
    }
    Ok(code)
}

/// A jump at an offset to the front, behind instructions of one byte.
fn jump_back(alloc: Global, from: u32) -> Result<Vec<(u32, Instr)>, AllocError> {
    behind(alloc, from, Instr::Goto { target: 0 })
}

/// Asserts that code is laid, and that its bytes are decoded as it; gives the bytes.
fn both_ways(rt: &impl Abort, alloc: Global, code: &[(u32, Instr)]) -> Result<Vec<u8>, Fail> {
    assert!(rt; laid(code));
    let bytes = encode(alloc, code)?;
    assert!(rt; bytes.len() < 50000);
    let found = decode(alloc, &bytes)?;
    assert!(rt; found.as_slice() == code);
    Ok(bytes)
}

#[test]
fn reach_forth(rt: HostRuntime) -> Result<(), Fail> {
    let bytes = both_ways(&rt, rt.alloc(), &jump_to(rt.alloc(), 32767)?)?;
    let found = bytes.as_slice().get(0..3);
    assert_eq!(rt; found, Some([0xa7, 0x7f, 0xff].as_slice()));
    assert!(rt; !laid(&jump_to(rt.alloc(), 32768)?));
    Ok(())
}

#[test]
fn reach_back(rt: HostRuntime) -> Result<(), Fail> {
    let bytes = both_ways(&rt, rt.alloc(), &jump_back(rt.alloc(), 32768)?)?;
    let found = bytes.as_slice().get(32768..32771);
    assert_eq!(rt; found, Some([0xa7, 0x80, 0x00].as_slice()));
    assert!(rt; !laid(&jump_back(rt.alloc(), 32769)?));
    Ok(())
}

/// A table of 300 targets from -7 to 292, behind instructions of one byte: each number goes to the front.
fn many_targets(alloc: Global, at: u32) -> Result<Vec<(u32, Instr)>, AllocError> {
    let mut targets = Vec::new(alloc);
    for _ in 0..300u32 {
        targets.push(0)?;
    }
    let table = TableSwitch {
        default: 0,
        low: -7,
        targets,
    };
    behind(alloc, at, Instr::TableSwitch(table))
}

/// A look-up of the numbers from -7 to 292, behind instructions of one byte: each number goes to the front.
fn many_pairs(alloc: Global, at: u32) -> Result<Vec<(u32, Instr)>, AllocError> {
    let mut pairs = Vec::new(alloc);
    for number in -7..293i32 {
        pairs.push((number, 0))?;
    }
    let lookup = LookupSwitch { default: 0, pairs };
    behind(alloc, at, Instr::LookupSwitch(lookup))
}

/// An instruction at an offset, behind instructions of one byte.
fn behind(alloc: Global, at: u32, instr: Instr) -> Result<Vec<(u32, Instr)>, AllocError> {
    let mut code = Vec::new(alloc);
    for before in 0..at {
        code.push((before, Instr::Lcmp))?;
    }
    code.push((at, instr))?;
    Ok(code)
}

#[test]
fn many_entries_at_each_padding(rt: HostRuntime) -> Result<(), Fail> {
    for at in 0..4u32 {
        let bytes = both_ways(&rt, rt.alloc(), &many_targets(rt.alloc(), at)?)?;
        assert_eq!(rt; bytes.len(), 1216);
        let ends = bytes.as_slice().get(8..16);
        assert_eq!(rt; ends, Some(b"\xff\xff\xff\xf9\x00\x00\x01\x24".as_slice()));
        let bytes = both_ways(&rt, rt.alloc(), &many_pairs(rt.alloc(), at)?)?;
        assert_eq!(rt; bytes.len(), 2412);
        let count = bytes.as_slice().get(8..12);
        assert_eq!(rt; count, Some(b"\x00\x00\x01\x2c".as_slice()));
    }
    Ok(())
}

#[test]
fn error_text(rt: HostRuntime) -> Result<(), Fail> {
    let text = format!(in rt.alloc(); "{}", CodeErr::Cut { offset: 7 })?;
    assert_eq!(rt;
        text.as_str(),
        "the bytes end within the instruction at offset 7"
    );
    Ok(())
}
