//! Class files against bytes that were made from the format by other means, and what is no class file.

use jvm_class_first::{PlainErr, read_plain, write_plain};
use kt_base::Plain;
use std::alloc::{AllocError, Global};
use std::test::Fail;

/// The class file of `println(2 + 3 * 4)`, item by item.
fn sum_items() -> [&'static [u8]; 33] {
    [
        b"\xCA\xFE\xBA\xBE\0\0\0\x34\0\x1C",
        b"\x07\0\x02",
        b"\x01\0\x06MainKt",
        b"\x07\0\x04",
        b"\x01\0\x10java/lang/Object",
        b"\x01\0\x04main",
        b"\x01\0\x03()V",
        b"\x01\0\x04Code",
        b"\x0A\0\x09\0\x0B",
        b"\x07\0\x0A",
        b"\x01\0\x0Akt/rt/Turn",
        b"\x0C\0\x0C\0\x06",
        b"\x01\0\x04tick",
        b"\x03\0\0\0\x02",
        b"\x03\0\0\0\x03",
        b"\x03\0\0\0\x04",
        b"\x0A\0\x11\0\x13",
        b"\x07\0\x12",
        b"\x01\0\x0Akt/rt/Text",
        b"\x0C\0\x14\0\x15",
        b"\x01\0\x02of",
        b"\x01\0\x15(I)Ljava/lang/String;",
        b"\x0A\0\x17\0\x19",
        b"\x07\0\x18",
        b"\x01\0\x09kt/rt/Out",
        b"\x0C\0\x1A\0\x1B",
        b"\x01\0\x07println",
        b"\x01\0\x15(Ljava/lang/String;)V",
        b"\0\x31\0\x01\0\x03\0\0\0\0\0\x01",
        b"\0\x09\0\x05\0\x06\0\x01",
        b"\0\x07\0\0\0\x21\0\x03\0\0\0\0\0\x15",
        b"\xB8\0\x08\x13\0\x0D\x13\0\x0E\x13\0\x0F\x68\x60\xB8\0\x10\xB8\0\x16\xB1",
        b"\0\0\0\0\0\0",
    ]
}

/// The class file of the program that does nothing.
fn nothing_items() -> [&'static [u8]; 13] {
    [
        b"\xCA\xFE\xBA\xBE\0\0\0\x34\0\x0D",
        b"\x07\0\x02\x01\0\x06MainKt",
        b"\x07\0\x04\x01\0\x10java/lang/Object",
        b"\x01\0\x04main",
        b"\x01\0\x03()V",
        b"\x01\0\x04Code",
        b"\x0A\0\x09\0\x0B",
        b"\x07\0\x0A\x01\0\x0Akt/rt/Turn",
        b"\x0C\0\x0C\0\x06\x01\0\x04tick",
        b"\0\x31\0\x01\0\x03\0\0\0\0\0\x01",
        b"\0\x09\0\x05\0\x06\0\x01",
        b"\0\x07\0\0\0\x10\0\0\0\0\0\0\0\x04\xB8\0\x08\xB1",
        b"\0\0\0\0\0\0",
    ]
}

/// A place in the class file of the sum, and a byte that makes it no class file there.
fn alterations() -> [(usize, u8); 19] {
    [
        // the magic number, the minor and the major version
        (0, 0xCB),
        (5, 1),
        (7, 0x33),
        // the count with its low byte first
        (8, 0x1C),
        // a tag, an index, a length with its low byte first, a name
        (10, 8),
        (12, 4),
        (14, 6),
        (18, b'm'),
        // the first number again
        (106, 2),
        // the flags of the class, how many interfaces and fields
        (227, 0x21),
        (233, 1),
        (235, 1),
        // the flags of the method, the number of its attributes
        (239, 1),
        (245, 2),
        // the length of the attribute, the stack, the locals
        (251, 0x22),
        (253, 4),
        (255, 1),
        // a number that isn't pushed, and the end of the code
        (265, 0x0E),
        (280, 0xB0),
    ]
}

fn joined(alloc: Global, items: &[&[u8]]) -> Result<Vec<u8>, AllocError> {
    let mut bytes = Vec::new(alloc);
    for item in items {
        bytes.extend_from_slice(item)?;
    }
    Ok(bytes)
}

fn refused(alloc: Global, bytes: &[u8]) -> bool {
    matches!(read_plain(alloc, bytes), Err(PlainErr::NotPlain))
}

#[test]
fn a_sum_both_ways(rt: HostRuntime) -> Result<(), Fail> {
    let code = [
        Plain::Push(2),
        Plain::Push(3),
        Plain::Push(4),
        Plain::Mul,
        Plain::Add,
        Plain::Print,
    ];
    let bytes = joined(rt.alloc(), &sum_items())?;
    let written = write_plain(rt.alloc(), &code)?;
    assert_eq!(rt; written.as_slice(), bytes.as_slice());
    let read = read_plain(rt.alloc(), bytes.as_slice())?;
    assert_eq!(rt; read.as_slice(), code.as_slice());
    Ok(())
}

#[test]
fn nothing_both_ways(rt: HostRuntime) -> Result<(), Fail> {
    let bytes = joined(rt.alloc(), &nothing_items())?;
    let written = write_plain(rt.alloc(), &[])?;
    assert_eq!(rt; written.as_slice(), bytes.as_slice());
    let read = read_plain(rt.alloc(), bytes.as_slice())?;
    assert!(rt; read.is_empty());
    Ok(())
}

#[test]
fn cut_and_lengthened(rt: HostRuntime) -> Result<(), Fail> {
    let mut bytes = joined(rt.alloc(), &sum_items())?;
    for length in 0..bytes.len() {
        assert!(rt; refused(rt.alloc(), &bytes[..length]), "{length}");
    }
    bytes.push(0)?;
    assert!(rt; refused(rt.alloc(), bytes.as_slice()));
    Ok(())
}

#[test]
fn altered(rt: HostRuntime) -> Result<(), Fail> {
    for (place, byte) in alterations() {
        let mut bytes = joined(rt.alloc(), &sum_items())?;
        if place < bytes.len() {
            assert!(rt; bytes[place] != byte, "{place}");
            bytes[place] = byte;
        }
        assert!(rt; refused(rt.alloc(), bytes.as_slice()), "{place}");
    }
    Ok(())
}

#[test]
fn zeros(rt: HostRuntime) -> Result<(), Fail> {
    let bytes = vec![in rt.alloc(); 0; 1_000_000]?;
    assert!(rt; refused(rt.alloc(), bytes.as_slice()));
    Ok(())
}
