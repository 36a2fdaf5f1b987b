//! Methods of strings.

use crate::shown::{called, text};
use mach_natives::{Native, TextNative};
use mach_value::{Heap, Value};
use std::test::Fail;

/// Bounds of `"hello"`, and the part between them or the bound that is told: the first that is outside, else the start.
fn parts() -> [(i32, i32, &'static [u8]); 8] {
    [
        (1, 3, b"el"),
        (0, 5, b"hello"),
        (5, 5, b""),
        (-1, 2, b"java/lang/StringIndexOutOfBoundsException: -1"),
        (2, 6, b"java/lang/StringIndexOutOfBoundsException: 6"),
        (-1, 9, b"java/lang/StringIndexOutOfBoundsException: -1"),
        (6, 7, b"java/lang/StringIndexOutOfBoundsException: 6"),
        (3, 1, b"java/lang/StringIndexOutOfBoundsException: 3"),
    ]
}

#[test]
fn parts_of_strings(rt: HostRuntime) -> Result<(), Fail> {
    for (start, end, want) in parts() {
        let mut heap = Heap::new(rt.alloc());
        let x = text(rt.alloc(), &mut heap, "hello")?;
        let which = Native::Text(TextNative::StringSubstring);
        let arguments = [x, Value::Int(start), Value::Int(end)];
        let found = called(rt.alloc(), which, &mut heap, arguments.as_slice())?;
        assert_eq!(rt; found.as_slice(), want, "between {start} and {end}");
    }
    Ok(())
}

/// Indices of `"a\u{1F600}"`, which has three units, and the unit there.
fn units() -> [(i32, &'static [u8]); 5] {
    [
        (0, b"97"),
        (1, b"55357"),
        (2, b"56832"),
        (3, b"java/lang/StringIndexOutOfBoundsException: 3"),
        (
            -2147483648,
            b"java/lang/StringIndexOutOfBoundsException: -2147483648",
        ),
    ]
}

#[test]
fn units_of_strings(rt: HostRuntime) -> Result<(), Fail> {
    for (at, want) in units() {
        let mut heap = Heap::new(rt.alloc());
        let x = text(rt.alloc(), &mut heap, "a\u{1F600}")?;
        let which = Native::Text(TextNative::StringCharAt);
        let arguments = [x, Value::Int(at)];
        let found = called(rt.alloc(), which, &mut heap, arguments.as_slice())?;
        assert_eq!(rt; found.as_slice(), want, "at {at}");
    }
    Ok(())
}

/// Methods of two strings, and what they come to.
fn pairs() -> [(TextNative, &'static str, &'static str, &'static [u8]); 6] {
    [
        (TextNative::Concat, "ab", "c", b"abc"),
        (TextNative::Concat, "", "", b""),
        (TextNative::StringEquals, "ab", "ab", b"1"),
        (TextNative::StringEquals, "ab", "abc", b"0"),
        (TextNative::StringLength, "abc", "", b"3"),
        (TextNative::StringToString, "abc", "", b"abc"),
    ]
}

#[test]
fn pairs_of_strings(rt: HostRuntime) -> Result<(), Fail> {
    for (which, first, second, want) in pairs() {
        let mut heap = Heap::new(rt.alloc());
        let x = text(rt.alloc(), &mut heap, first)?;
        let y = text(rt.alloc(), &mut heap, second)?;
        let arguments = [x, y];
        let found = called(
            rt.alloc(),
            Native::Text(which),
            &mut heap,
            arguments.as_slice(),
        )?;
        assert_eq!(rt; found.as_slice(), want, "of {first} and {second}");
    }
    Ok(())
}
