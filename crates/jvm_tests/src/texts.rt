//! Texts in modified UTF-8, against the tables of JVMS SE 8 §4.4.7.

use jvm_pool::{ModifiedErr, put_modified, read_modified};
use kt_base::Text16;
use std::alloc::Global;
use std::process::Abort;
use std::test::Fail;

/// Texts and their bytes, worked out by hand from the tables of JVMS SE 8 §4.4.7.
fn spelled_texts() -> [(&'static [u16], &'static [u8]); 10] {
    [
        (&[], b""),
        (&[0], b"\xC0\x80"),
        (&[0x01, 0x41, 0x7F], b"\x01A\x7F"),
        (&[0x80, 0x7FF], b"\xC2\x80\xDF\xBF"),
        (&[0xFC, 0x62, 0xE4], b"\xC3\xBCb\xC3\xA4"),
        (&[0x800, 0xFFFF], b"\xE0\xA0\x80\xEF\xBF\xBF"),
        (&[0x20AC], b"\xE2\x82\xAC"),
        (&[0xD83D, 0xDE00], b"\xED\xA0\xBD\xED\xB8\x80"),
        (&[0xD800], b"\xED\xA0\x80"),
        (&[0xDFFF], b"\xED\xBF\xBF"),
    ]
}

#[test]
fn texts_and_their_bytes(rt: HostRuntime) -> Result<(), Fail> {
    for (units, bytes) in spelled_texts() {
        both_ways(&rt, rt.alloc(), units, bytes)?;
    }
    Ok(())
}

fn both_ways(rt: &impl Abort, alloc: Global, units: &[u16], bytes: &[u8]) -> Result<(), Fail> {
    let text = Text16::from_units(Vec::from_slice(alloc, units)?);
    let mut into = Vec::new(alloc);
    put_modified(&text, &mut into)?;
    assert_eq!(rt; into.as_slice(), bytes, "of {units:?}");
    assert_eq!(rt; read_modified(alloc, bytes)?, text, "of {bytes:?}");
    Ok(())
}

fn no_texts() -> [&'static [u8]; 14] {
    [
        b"a\x00",
        b"\x80",
        b"\xC0",
        b"\xC0\x81",
        b"\xC1\xBF",
        b"\xC2",
        b"\xC2\x41",
        b"\xE0\x9F\xBF",
        b"\xE0\x80\x80",
        b"\xE2\x82",
        b"\xE2\x82\x41",
        b"\xED\xA0\xBD\xED\xB8",
        b"\xF0\x9F\x98\x80",
        b"\xFF",
    ]
}

#[test]
fn bytes_that_spell_no_text(rt: HostRuntime) {
    for bytes in no_texts() {
        let read = read_modified(rt.alloc(), bytes).err();
        assert_eq!(rt; read, Some(ModifiedErr::Bad), "at {bytes:?}");
    }
}
