//! The class with everything, read and written again; other classes that differ from it by a few bytes.

use crate::parts::whole;
use crate::telling::{altered, refusal};
use class_reader::read;
use jvm_class::well_formed;
use jvm_class_types::{ClassFile, Frame, Method};
use jvm_pool::Entry;
use std::alloc::Global;
use std::test::Fail;

/// The class that `whole` spells.
fn class_of(alloc: Global) -> Result<ClassFile, Fail> {
    let bytes = whole(alloc)?;
    match read(alloc, &bytes) {
        Ok(class) => Ok(class),
        Err(_) => Err(Fail::from("no class file")),
    }
}

/// The frames of the method with this number.
fn frames_of(class: &ClassFile, number: usize) -> Result<&[Frame], Fail> {
    match class.methods.get(number) {
        Some(
            Method {
                code: Some(code),
                ..
            },
        ) => Ok(&code.frames),
        _ => Err(Fail::from("no code")),
    }
}

#[test]
fn whole_class(rt: HostRuntime) -> Result<(), Fail> {
    let bytes = whole(rt.alloc())?;
    assert_eq!(rt; bytes.len(), 1004usize);
    assert_eq!(rt; refusal(rt.alloc(), &bytes)?, None);
    Ok(())
}

/// A file that is cut is refused at its length.
#[test]
fn whole_class_cut(rt: HostRuntime) -> Result<(), Fail> {
    let bytes = whole(rt.alloc())?;
    for length in 0..bytes.len() {
        assert_eq!(rt; refusal(rt.alloc(), &bytes[..length])?, Some(length as u64));
    }
    Ok(())
}

/// A byte behind the class is refused at its own offset.
#[test]
fn whole_class_and_more(rt: HostRuntime) -> Result<(), Fail> {
    let mut bytes = whole(rt.alloc())?;
    bytes.push(0)?;
    assert_eq!(rt; refusal(rt.alloc(), &bytes)?, Some(1004));
    Ok(())
}

/// Bytes that are put into `whole` and leave a class file: what a frame's offset is, flags, numbers, and a text that
/// has half of a pair of surrogates.
fn other_classes() -> [(usize, &'static [u8]); 7] {
    [
        // a frame that points between instructions: whether it is one is a matter of verification
        (953, b"\x51"),
        // an interface, and a class that isn't abstract
        (421, b"\x06\x01"),
        (421, b"\x00\x21"),
        // units of the stack and of the local variables
        (515, b"\xFF\xFF\x00\x00"),
        // a range that ends before it begins, and a handler between instructions
        (693, b"\x00\x50\x00\x28\x00\x2A"),
        // another text
        (314, b"\xED\xB8\x80"),
        // another number
        (304, b"\x80\x00\x00\x00"),
    ]
}

#[test]
fn other_class_files(rt: HostRuntime) -> Result<(), Fail> {
    let bytes = whole(rt.alloc())?;
    for (at, slip) in other_classes() {
        let other = altered(rt.alloc(), &bytes, at, slip)?;
        assert_eq!(rt; refusal(rt.alloc(), &other)?, None, "of {slip:?} at {at}");
    }
    Ok(())
}

/// The frames of the last method: the offset of each, and how many types are in its locals and on its stack.
fn shapes() -> [(u32, usize, usize); 11] {
    [
        (80, 1, 0),
        (160, 1, 1),
        (164, 4, 0),
        (166, 1, 0),
        (168, 3, 0),
        (170, 1, 0),
        (172, 2, 0),
        (174, 1, 0),
        (176, 1, 0),
        (178, 1, 1),
        (180, 2, 2),
    ]
}

#[test]
fn frames_are_expanded(rt: HostRuntime) -> Result<(), Fail> {
    let class = class_of(rt.alloc())?;
    let frames = frames_of(&class, 3)?;
    assert_eq!(rt; frames.len(), 11usize);
    for (frame, shape) in frames.iter().zip(shapes()) {
        assert_eq!(rt;
            (frame.offset, frame.locals.len(), frame.stack.len()),
            shape
        );
    }
    Ok(())
}

/// A text of the pool has the units that its modified UTF-8 spells, half of a pair of surrogates among them.
#[test]
fn surrogates(rt: HostRuntime) -> Result<(), Fail> {
    let class = class_of(rt.alloc())?;
    match class.pool.get(36) {
        Some(Entry::Utf8(text)) => assert_eq!(rt;
            text.units(),
            [0xD83D, 0xDE00, 0xD800].as_slice()
        ),
        _ => return Err(Fail::from("no text")),
    }
    Ok(())
}

/// The class with less in it, so that it doesn't mention its whole pool.
fn less(alloc: Global, part: char) -> Result<ClassFile, Fail> {
    let mut class = class_of(alloc)?;
    match part {
        'i' => class.interfaces.truncate(1),
        'f' => class.fields.truncate(6),
        _ => class.methods.truncate(3),
    }
    Ok(class)
}

/// A class that doesn't mention an entry of its pool has no class file.
#[test]
fn unmentioned_entries(rt: HostRuntime) -> Result<(), Fail> {
    for part in ['i', 'f', 'm'] {
        let class = less(rt.alloc(), part)?;
        assert!(rt; !well_formed(&class), "without {part}");
    }
    Ok(())
}
