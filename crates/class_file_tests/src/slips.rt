//! Slips in the class with everything, each with the offset at which the bytes are refused.

use crate::parts::whole;
use crate::telling::{altered, refusal};
use std::alloc::Global;
use std::process::Abort;
use std::test::Fail;

/// Bytes that are put into the pool of `whole` at an offset, and the offset at which that is refused.
fn pool_slips() -> [(usize, &'static [u8], u64); 27] {
    [
        // the first byte, another version, a count of 0, and one that leaves the long one index
        (0, b"\xCB", 0),
        (5, b"\x01", 4),
        (6, b"\x00\x35", 6),
        (8, b"\x00\x00", 8),
        (9, b"\x26", 323),
        // a class whose name is a class, is not below the count, or has index 0
        (12, b"\x01", 10),
        (12, b"\x30", 10),
        (12, b"\x00", 10),
        // a text as long as it and the tag behind it, so that its length is a tag; and one less
        (92, b"\x02", 95),
        (92, b"\x00", 93),
        // a text that stands already
        (104, b"I", 101),
        // a text with the byte 0, in a form of four bytes, and one whose last unit is cut off
        (93, b"\x00", 90),
        (314, b"\xF0", 311),
        (322, b"A", 311),
        // a method whose class is a text, or whose name and descriptor are those of a field
        (227, b"\x04", 225),
        (229, b"\x2A", 225),
        // a field whose descriptor is that of a method
        (346, b"\x28", 342),
        // a name that is a class, and a descriptor that is none, is not below the count, or has index 0
        (232, b"\x01", 230),
        (234, b"\x19", 230),
        (234, b"\x30", 230),
        (234, b"\x00", 230),
        // a float, a reserved tag, and a method handle
        (303, b"\x04", 303),
        (303, b"\x02", 303),
        (303, b"\x0F", 303),
        // a constant whose text is itself
        (310, b"\x23", 308),
        // classes that stand already
        (26, b"\x07\x00\x02", 26),
        (389, b"\x2C", 387),
    ]
}

/// The same of what stands behind the pool.
fn class_slips() -> [(usize, &'static [u8], u64); 33] {
    [
        // flags of a class that is abstract and final; this class by its name's text, and by the class behind it
        (421, b"\x04\x31", 421),
        (424, b"\x02", 423),
        (424, b"\x03", 423),
        // an interface more: the number of fields is its index, and a field's index the flags of the next
        (428, b"\x03", 437),
        // a name that isn't next, a descriptor of a method, and an attribute
        (438, b"\x0B", 437),
        (442, b"\x01", 441),
        (456, b"\x18", 455),
        (499, b"\x00\x01", 499),
        // another attribute than Code, and its length one more and one less
        (510, b"\x1A", 509),
        (514, b"\x20", 511),
        (514, b"\x1E", 511),
        // a length of the code of 0 and of 65,536; one more: the byte behind it is no opcode; one less: what follows is
        // read as handlers, of which the second catches a class that isn't there
        (519, b"\x00\x00\x00\x00", 519),
        (519, b"\x00\x01\x00\x00", 519),
        (522, b"\x0A", 532),
        (522, b"\x08", 547),
        // a branch into an instruction
        (527, b"\x04", 525),
        // another attribute than StackMapTable, two of them, its length one more and one less, and no frames
        (534, b"\x00\x02", 534),
        (537, b"\x1B", 536),
        (541, b"\x05", 538),
        (541, b"\x03", 538),
        (542, b"\x00\x00", 542),
        // a long as an int, and behind it an opcode that is none: the code is decoded before its mentions are judged
        (570, b"\x25", 568),
        (571, b"\xBA", 571),
        (570, b"\x25\xBA", 571),
        // a text as a class, a count of other arguments, a method as a field, an array of another class
        (646, b"\x02", 644),
        (657, b"\x02", 654),
        (664, b"\x1C", 662),
        (667, b"\x01", 665),
        // a text as the class that is caught
        (700, b"\x2C", 699),
        // an entry that is never mentioned
        (736, b"\x00\x20", 1004),
        // an attribute of the class
        (1002, b"\x00\x01", 1002),
        // flags of no method, and a static method without code
        (734, b"\x00\x0A", 734),
        (740, b"\x00\x00", 740),
    ]
}

/// The same of frames.
fn frame_slips() -> [(usize, &'static [u8], u64); 15] {
    [
        // a delta of 48 and one of 63 behind the tag
        (953, b"\x30", 951),
        (956, b"\x3F", 954),
        // the first and the last reserved tag
        (951, b"\x80", 951),
        (951, b"\xF6", 951),
        // types of a float, of a double, and of nothing
        (957, b"\x02", 954),
        (957, b"\x03", 954),
        (957, b"\x09", 954),
        // the class of an object is a text
        (972, b"\x02", 967),
        // three locals less, where there are two
        (983, b"\xF8", 983),
        // all types, where the first form that fits has one on the stack, fewer locals, or more
        (994, b"\x00\x01\x01\x00\x01\x05", 991),
        (994, b"\x00\x00\x00\x00", 991),
        (996, b"\x01\x04\x00\x00", 991),
        (1000, b"\x09", 991),
        // a frame less and a frame more than the length takes
        (949, b"\x00\x0A", 945),
        (949, b"\x00\x0C", 945),
    ]
}

/// Each slip of a table is refused at its offset.
fn refuses(
    rt: &impl Abort,
    alloc: Global,
    slips: &[(usize, &'static [u8], u64)],
) -> Result<(), Fail> {
    let bytes = whole(alloc)?;
    for (at, slip, offset) in slips {
        let other = altered(alloc, &bytes, *at, slip)?;
        assert_eq!(rt;
            refusal(alloc, &other)?,
            Some(*offset),
            "of {slip:?} at {at}"
        );
    }
    Ok(())
}

#[test]
fn slips_of_the_pool(rt: HostRuntime) -> Result<(), Fail> {
    refuses(&rt, rt.alloc(), &pool_slips())
}

#[test]
fn slips_of_the_class(rt: HostRuntime) -> Result<(), Fail> {
    refuses(&rt, rt.alloc(), &class_slips())
}

#[test]
fn slips_of_frames(rt: HostRuntime) -> Result<(), Fail> {
    refuses(&rt, rt.alloc(), &frame_slips())
}
