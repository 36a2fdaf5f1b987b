//! Methods of boxes.

use crate::shown::called;
use mach_natives::{BoxNative, Native};
use mach_rows::make;
use mach_value::{Heap, Object, Value};
use std::test::Fail;

/// Methods that take a number, and what they come to.
fn made() -> [(BoxNative, Value, &'static [u8]); 4] {
    [
        (BoxNative::IntegerValueOf, Value::Int(7), b"box of int"),
        (BoxNative::LongValueOf, Value::Long(7), b"box of long"),
        (BoxNative::BooleanValueOf, Value::Int(2), b"box of boolean"),
        (BoxNative::CharacterValueOf, Value::Int(65), b"box of char"),
    ]
}

#[test]
fn boxes_are_made(rt: HostRuntime) -> Result<(), Fail> {
    for (which, x, want) in made() {
        let mut heap = Heap::new(rt.alloc());
        let arguments = [x];
        let found = called(
            rt.alloc(),
            Native::Box(which),
            &mut heap,
            arguments.as_slice(),
        )?;
        assert_eq!(rt; found.as_slice(), want, "of {x:?}");
    }
    Ok(())
}

/// Methods of a box of 1 (an `int`), with another box of 1, a box of the `long` 1, and a character.
fn of_one() -> [(BoxNative, u64, &'static [u8]); 6] {
    [
        (BoxNative::IntegerEquals, 2, b"1"),
        (BoxNative::IntegerEquals, 3, b"1"),
        (BoxNative::IntegerEquals, 4, b"0"),
        (BoxNative::IntegerEquals, 0, b"0"),
        (BoxNative::IntegerToString, 0, b"1"),
        (
            BoxNative::LongToString,
            0,
            b"java/lang/NullPointerException: null",
        ),
    ]
}

#[test]
fn boxes_of_one(rt: HostRuntime) -> Result<(), Fail> {
    for (which, other, want) in of_one() {
        let mut heap = Heap::new(rt.alloc());
        let x = Value::Ref(make(&mut heap, Object::Int(1))?);
        let _same = make(&mut heap, Object::Int(1))?;
        let _long = make(&mut heap, Object::Long(1))?;
        let arguments = [x, Value::Ref(other)];
        let found = called(
            rt.alloc(),
            Native::Box(which),
            &mut heap,
            arguments.as_slice(),
        )?;
        assert_eq!(rt; found.as_slice(), want, "with {other}");
    }
    Ok(())
}
