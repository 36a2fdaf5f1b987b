//! Constant pools read from their bytes, against the tables of JVMS SE 8 §4.4.

use jvm_class_formats::Place;
use jvm_pool_reader::read_pool;
use std::alloc::Global;
use std::process::Abort;
use std::test::Fail;

/// How many entries the pool at the front has, its count, and where it ends; or why there is no pool.
fn told(rt: &impl Abort, alloc: Global, bytes: &[u8]) -> Result<String, Fail> {
    assert!(rt; bytes.len() < 1000);
    match read_pool(alloc, Place::start(bytes)) {
        Ok((pool, place)) => Ok(format!(in alloc;
            "{} entries, count {}, to {}",
            pool.len(),
            pool.count(),
            place.offset()
        )?),
        Err(error) => Ok(format!(in alloc; "{error:?}")?),
    }
}

/// Pools.
fn pools() -> [(&'static [u8], &'static str); 5] {
    [
        (b"\x00\x01", "0 entries, count 1, to 2"),
        (b"\x00\x02\x01\x00\x01A\xFF", "1 entries, count 2, to 6"),
        (
            b"\x00\x03\x05\x00\x00\x00\x00\x00\x00\x00\x01",
            "1 entries, count 3, to 11",
        ),
        (
            b"\x00\x03\x07\x00\x02\x01\x00\x01A",
            "2 entries, count 3, to 9",
        ),
        (
            b"\x00\x07\x09\x00\x02\x00\x04\x07\x00\x03\x01\x00\x01A\x0C\x00\x05\x00\x06\x01\x00\x01x\x01\x00\x01I",
            "6 entries, count 7, to 27",
        ),
    ]
}

/// Bytes that are no pool: refused at the first entry that breaks its rule, else where the file ends.
fn no_pools() -> [(&'static [u8], &'static str); 9] {
    [
        // the count is 0, or isn't there
        (b"\x00\x00", "BadBytes { offset: 0 }"),
        (b"\x00", "BadBytes { offset: 1 }"),
        // an index that isn't below the count, and one that is 0
        (b"\x00\x02\x07\x00\x02", "BadBytes { offset: 2 }"),
        (b"\x00\x02\x07\x00\x00", "BadBytes { offset: 2 }"),
        // the same text twice
        (
            b"\x00\x03\x01\x00\x01A\x01\x00\x01A",
            "BadBytes { offset: 6 }",
        ),
        // a long with one index left
        (
            b"\x00\x02\x05\x00\x00\x00\x00\x00\x00\x00\x01",
            "BadBytes { offset: 2 }",
        ),
        // the file ends before the name of the class, which isn't judged
        (b"\x00\x03\x07\x00\x02", "BadBytes { offset: 5 }"),
        // a class whose name is empty, before the end of the file
        (
            b"\x00\x04\x07\x00\x02\x01\x00\x00",
            "BadBytes { offset: 2 }",
        ),
        // a field with the descriptor of a method
        (
            b"\x00\x07\x09\x00\x02\x00\x04\x07\x00\x03\x01\x00\x01A\x0C\x00\x05\x00\x06\x01\x00\x01x\x01\x00\x03()V",
            "BadBytes { offset: 2 }",
        ),
    ]
}

#[test]
fn pools_and_their_bytes(rt: HostRuntime) -> Result<(), Fail> {
    for (bytes, want) in pools() {
        let text = told(&rt, rt.alloc(), bytes)?;
        assert_eq!(rt; text.as_str(), want, "of {bytes:?}");
    }
    Ok(())
}

#[test]
fn bytes_that_are_no_pool(rt: HostRuntime) -> Result<(), Fail> {
    for (bytes, want) in no_pools() {
        let text = told(&rt, rt.alloc(), bytes)?;
        assert_eq!(rt; text.as_str(), want, "of {bytes:?}");
    }
    Ok(())
}
