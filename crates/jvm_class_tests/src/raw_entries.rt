//! Entries of a constant pool as they stand in a file, against the tables of JVMS SE 8 §4.4.

use jvm_class_formats::Place;
use jvm_pool_bytes::reading::raw_entry;
use std::alloc::Global;
use std::process::Abort;
use std::test::Fail;

/// What stands at the front of the bytes, and where it ends; or why there is no entry.
fn told(rt: &impl Abort, alloc: Global, bytes: &[u8]) -> Result<String, Fail> {
    assert!(rt; bytes.len() < 1000);
    match raw_entry(alloc, Place::start(bytes)) {
        Ok((entry, place)) => Ok(format!(in alloc; "{entry:?} to {}", place.offset())?),
        Err(error) => Ok(format!(in alloc; "{error:?}")?),
    }
}

/// An entry of each kind.
fn entries() -> [(&'static [u8], &'static str); 10] {
    [
        (b"\x01\x00\x00", "Utf8(Text16 { units: [] }) to 3"),
        (b"\x01\x00\x02Hi!", "Utf8(Text16 { units: [72, 105] }) to 5"),
        (b"\x03\xFF\xFF\xFF\xFE", "Int(-2) to 5"),
        (b"\x05\x00\x00\x00\x00\x00\x00\x01\x00", "Long(256) to 9"),
        (b"\x07\x00\x02", "Class(2) to 3"),
        (b"\x08\x01\x00", "Text(256) to 3"),
        (b"\x09\x00\x01\x00\x02", "Field(1, 2) to 5"),
        (b"\x0A\x00\x01\x00\x02", "Method(1, 2) to 5"),
        (b"\x0B\x00\x01\x00\x02", "InterfaceMethod(1, 2) to 5"),
        (b"\x0C\x00\x03\x00\x04", "NameAndType(3, 4) to 5"),
    ]
}

/// Bytes that are no entry: refused at the start, or at the end where they end within one.
fn no_entries() -> [(&'static [u8], &'static str); 8] {
    [
        (b"", "BadBytes { offset: 0 }"),
        (b"\x00", "BadBytes { offset: 0 }"),
        (b"\x02\x00\x00", "BadBytes { offset: 0 }"),
        (b"\x0F\x01\x00\x01", "BadBytes { offset: 0 }"),
        (b"\x01\x00\x01\x00", "BadBytes { offset: 0 }"),
        (b"\x01\x00\x03Hi", "BadBytes { offset: 5 }"),
        (b"\x03\x00\x00", "BadBytes { offset: 3 }"),
        (b"\x0C\x00\x03\x00", "BadBytes { offset: 4 }"),
    ]
}

#[test]
fn raw_entries_and_their_bytes(rt: HostRuntime) -> Result<(), Fail> {
    for (bytes, want) in entries() {
        let text = told(&rt, rt.alloc(), bytes)?;
        assert_eq!(rt; text.as_str(), want, "of {bytes:?}");
    }
    Ok(())
}

#[test]
fn bytes_that_are_no_entry(rt: HostRuntime) -> Result<(), Fail> {
    for (bytes, want) in no_entries() {
        let text = told(&rt, rt.alloc(), bytes)?;
        assert_eq!(rt; text.as_str(), want, "of {bytes:?}");
    }
    Ok(())
}
