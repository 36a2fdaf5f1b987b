//! What can be printed, compared and shared.

use crate::samples::{hierarchy, sample};
use kt_base::NoMemory;
use kt_types::kinds::{is_equatable, is_printable, is_shareable};
use std::alloc::Global;
use std::test::Fail;

/// A type, whether it can be printed, and whether it can stand left of `==`.
fn rows() -> [(&'static str, bool, bool); 18] {
    [
        ("I", true, true),
        ("?S", true, true),
        ("U", true, true),
        ("C5", true, true),
        ("?C5", true, true),
        ("C6", true, true),
        ("C7", true, true),
        ("C1", false, false),
        ("C0", false, false),
        ("N", false, false),
        ("?N", true, false),
        ("A", false, false),
        ("?A", false, false),
        ("p20", false, false),
        ("i", false, false),
        ("a?I", false, false),
        ("cI", false, false),
        ("fU", false, false),
    ]
}

fn printed_compared(alloc: Global, text: &str) -> Result<(bool, bool), NoMemory> {
    let h = hierarchy(alloc)?;
    let t = sample(alloc, text)?;
    Ok((is_printable(&h, &t), is_equatable(&h, &t)))
}

#[test]
fn printed_and_compared(rt: HostRuntime) -> Result<(), Fail> {
    for (text, prints, equates) in rows() {
        let found = printed_compared(rt.alloc(), text)?;
        assert!(&rt; found.0 == prints && found.1 == equates, "{text}");
    }
    Ok(())
}

/// A type, and whether it is shareable where `C1`, `G2` and `C3` are plain and the type parameter of row 2 counts.
fn shared() -> [(&'static str, bool); 17] {
    [
        ("I", true),
        ("?S", true),
        ("C5", true),
        ("?N", true),
        ("C1", true),
        ("?C1", true),
        ("C6", false),
        ("G2I", true),
        ("G2C6", false),
        ("G2i", false),
        ("cI", true),
        ("?cG2C1", true),
        ("cA", false),
        ("A", false),
        ("a?I", false),
        ("p20", true),
        ("p00", false),
    ]
}

fn is_shared(alloc: Global, text: &str) -> Result<bool, NoMemory> {
    let h = hierarchy(alloc)?;
    let t = sample(alloc, text)?;
    let plain = [false, true, true, true, false, false, false, false];
    Ok(is_shareable(&h, &plain, &[false, false, true], &t))
}

#[test]
fn shareable(rt: HostRuntime) -> Result<(), Fail> {
    for (text, wanted) in shared() {
        assert!(&rt; is_shared(rt.alloc(), text)? == wanted, "{text}");
    }
    Ok(())
}
