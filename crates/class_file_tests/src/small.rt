//! Two small classes, and slips in the second.

use crate::telling::{altered, refusal};
use std::test::Fail;

/// A class `A` below `B` with nothing in it.
fn empty() -> &'static [u8] {
    b"\xCA\xFE\xBA\xBE\x00\x00\x004\x00\x05\x07\x00\x02\x01\x00\x01A\x07\x00\x04\x01\x00\x01B\x00!\x00\x01\x00\x03\x00\x00\x00\x00\x00\x00\x00\x00"
}

/// An abstract class `A` below `B` with a final field `x` of type `I`, an abstract method `f()V`, and a static method
/// `g()V` that returns.
pub(crate) fn members() -> &'static [u8] {
    b"\xCA\xFE\xBA\xBE\x00\x00\x004\x00\x0B\x07\x00\x02\x01\x00\x01A\x07\x00\x04\x01\x00\x01B\x01\x00\x01x\x01\x00\x01I\x01\x00\x01f\x01\x00\x03()V\x01\x00\x01g\x01\x00\x04Code\x04!\x00\x01\x00\x03\x00\x00\x00\x01\x00\x11\x00\x05\x00\x06\x00\x00\x00\x02\x04\x01\x00\x07\x00\x08\x00\x00\x00\x09\x00\x09\x00\x08\x00\x01\x00\x0A\x00\x00\x00\x0D\x00\x00\x00\x00\x00\x00\x00\x01\xB1\x00\x00\x00\x00\x00\x00"
}

/// Bytes that are put into `members` at an offset, and the offset at which that is refused.
fn slips() -> [(usize, &'static [u8], u64); 26] {
    [
        // the magic number, and the version
        (0, b"\xCB", 0),
        (4, b"\x00\x01", 4),
        (6, b"\x00\x35", 6),
        // the pool: a class whose name is a class, a bad tag, a text that is no modified UTF-8, a text that stands
        // already
        (11, b"\x00\x03", 10),
        (24, b"\x02", 24),
        (27, b"\xFF", 24),
        (31, b"x", 28),
        // flags of no class
        (53, b"\x00\x20", 53),
        // the name of the class: a text, an entry that isn't next, an index that is the count
        (55, b"\x00\x02", 55),
        (55, b"\x00\x03", 55),
        (55, b"\x00\x0B", 55),
        // the class above is the class, so the name of the field isn't next
        (57, b"\x00\x01", 65),
        // a field: its flags, a descriptor of a method, an attribute
        (63, b"\x00\x02", 63),
        (67, b"\x00\x08", 67),
        (69, b"\x00\x01", 69),
        // an abstract method with an attribute, and a static one without
        (79, b"\x00\x01", 79),
        (87, b"\x00\x00", 87),
        // another attribute, and lengths one more and one less
        (89, b"\x00\x09", 89),
        (91, b"\x00\x00\x00\x0E", 91),
        (91, b"\x00\x00\x00\x0C", 91),
        // code of 0 and of 65,536 bytes, and an opcode that no row has
        (99, b"\x00\x00\x00\x00", 99),
        (99, b"\x00\x01\x00\x00", 99),
        (103, b"\xFE", 103),
        // a handler that isn't there, two attributes of code, one of the class
        (104, b"\x00\x01", 110),
        (106, b"\x00\x02", 106),
        (108, b"\x00\x01", 108),
    ]
}

#[test]
fn small_classes(rt: HostRuntime) -> Result<(), Fail> {
    for bytes in [empty(), members()] {
        assert_eq!(rt; refusal(rt.alloc(), bytes)?, None, "of {bytes:?}");
    }
    Ok(())
}

/// A file that is cut is refused at its length.
#[test]
fn cut_files(rt: HostRuntime) -> Result<(), Fail> {
    let bytes = members();
    for length in 0..bytes.len() {
        assert_eq!(rt; refusal(rt.alloc(), &bytes[..length])?, Some(length as u64));
    }
    Ok(())
}

#[test]
fn slips_and_their_offsets(rt: HostRuntime) -> Result<(), Fail> {
    for (at, slip, offset) in slips() {
        let other = altered(rt.alloc(), members(), at, slip)?;
        assert_eq!(rt;
            refusal(rt.alloc(), &other)?,
            Some(offset),
            "of {slip:?} at {at}"
        );
    }
    Ok(())
}

/// A byte behind the class is refused at its own offset.
#[test]
fn surplus_byte(rt: HostRuntime) -> Result<(), Fail> {
    let mut bytes = Vec::from_slice(rt.alloc(), members())?;
    bytes.push(0)?;
    assert_eq!(rt; refusal(rt.alloc(), &bytes)?, Some(110));
    Ok(())
}
