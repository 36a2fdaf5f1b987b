//! The bytes of a class with everything that the format has: interfaces, fields, abstract methods, each kind of
//! mention, both switches, wide forms, handlers, and a frame in each form. They were written by hand.

use std::alloc::Global;
use std::test::Fail;

/// The head, and the pool in the order of first mention.
fn pool() -> [&'static [u8]; 47] {
    [
        // the magic number, the version, and the count of the pool
        b"\xCA\xFE\xBA\xBE\x00\x00\x00\x34\x00\x30",
        b"\x07\x00\x02",
        b"\x01\x00\x07a/Whole",
        b"\x07\x00\x04",
        b"\x01\x00\x10java/lang/Object",
        b"\x07\x00\x06",
        b"\x01\x00\x07a/Shape",
        b"\x07\x00\x08",
        b"\x01\x00\x12java/lang/Runnable",
        b"\x01\x00\x05count",
        b"\x01\x00\x01I",
        b"\x01\x00\x04size",
        b"\x01\x00\x01J",
        b"\x01\x00\x04open",
        b"\x01\x00\x01Z",
        b"\x01\x00\x05first",
        b"\x01\x00\x01C",
        b"\x01\x00\x05cells",
        b"\x01\x00\x02[I",
        b"\x01\x00\x03all",
        b"\x01\x00\x13[Ljava/lang/Object;",
        b"\x01\x00\x04next",
        b"\x01\x00\x09La/Whole;",
        b"\x01\x00\x04area",
        b"\x01\x00\x04(J)J",
        b"\x01\x00\x06<init>",
        b"\x01\x00\x04(I)V",
        b"\x01\x00\x04Code",
        b"\x0A\x00\x03\x00\x1D",
        b"\x0C\x00\x19\x00\x1E",
        b"\x01\x00\x03()V",
        b"\x01\x00\x0DStackMapTable",
        b"\x01\x00\x03run",
        b"\x01\x00\x25(IJZC[I[Ljava/lang/Object;La/Whole;)I",
        // an int
        b"\x03\x00\x0F\x42\x40",
        b"\x08\x00\x24",
        b"\x01\x00\x09\xED\xA0\xBD\xED\xB8\x80\xED\xA0\x80",
        // a long
        b"\x05\x80\x00\x00\x00\x00\x00\x00\x00",
        b"\x0B\x00\x05\x00\x28",
        b"\x0C\x00\x17\x00\x18",
        b"\x09\x00\x01\x00\x2A",
        b"\x0C\x00\x09\x00\x0A",
        b"\x07\x00\x2C",
        b"\x01\x00\x1Djava/lang/ArithmeticException",
        b"\x07\x00\x2E",
        b"\x01\x00\x13java/lang/Throwable",
        b"\x01\x00\x06frames",
    ]
}

/// The class, its interfaces and its fields.
fn front() -> [&'static [u8]; 10] {
    [
        // an abstract class
        b"\x04\x21\x00\x01\x00\x03",
        // interfaces
        b"\x00\x02\x00\x05\x00\x07",
        // fields
        b"\x00\x07",
        // field count
        b"\x00\x01\x00\x09\x00\x0A\x00\x00",
        // field size
        b"\x00\x11\x00\x0B\x00\x0C\x00\x00",
        // field open
        b"\x00\x01\x00\x0D\x00\x0E\x00\x00",
        // field first
        b"\x00\x11\x00\x0F\x00\x10\x00\x00",
        // field cells
        b"\x00\x01\x00\x11\x00\x12\x00\x00",
        // field all
        b"\x00\x01\x00\x13\x00\x14\x00\x00",
        // field next
        b"\x00\x11\x00\x15\x00\x16\x00\x00",
    ]
}

/// An abstract method, and a constructor, which has a frame.
fn starts() -> [&'static [u8]; 14] {
    [
        // methods
        b"\x00\x04",
        // method area
        b"\x04\x01\x00\x17\x00\x18",
        // no code
        b"\x00\x00",
        // method <init>
        b"\x00\x01\x00\x19\x00\x1A",
        // its code
        b"\x00\x01\x00\x1B\x00\x00\x00\x1F",
        // 2 units of stack, 2 of local variables, 9 bytes
        b"\x00\x02\x00\x02\x00\x00\x00\x09",
        // 0: aload_0
        b"\x2A",
        // 1: iload_1
        b"\x1B",
        // 2: ifeq 5
        b"\x99\x00\x03",
        // 5: invokespecial
        b"\xB7\x00\x1C",
        // 8: return
        b"\xB1",
        // 0 handlers
        b"\x00\x00",
        // a StackMapTable of 1 frame
        b"\x00\x01\x00\x1F\x00\x00\x00\x04\x00\x01",
        // 5: one
        b"\x45\x06",
    ]
}

/// A method with each kind of mention, both switches, wide forms and handlers.
fn kinds() -> [&'static [u8]; 42] {
    [
        // method run
        b"\x00\x09\x00\x20\x00\x21",
        // its code
        b"\x00\x01\x00\x1B\x00\x00\x00\xAE",
        // 6 units of stack, 300 of local variables, 123 bytes
        b"\x00\x06\x01\x2C\x00\x00\x00\x7B",
        // 0: ldc_w 1000000
        b"\x13\x00\x22",
        // 3: pop
        b"\x57",
        // 4: ldc_w text
        b"\x13\x00\x23",
        // 7: pop
        b"\x57",
        // 8: ldc2_w
        b"\x14\x00\x25",
        // 11: pop2
        b"\x58",
        // 12: iload 0
        b"\x15\x00",
        // 14: tableswitch from -1
        b"\xAA\x00\x00\x00\x00\x57\xFF\xFF\xFF\xFF\x00\x00\x00\x01\x00\x00\x00\x1A\x00\x00\x00\x57\x00\x00",
        b"\x00\x3E",
        // 40: iload_0
        b"\x1A",
        // 41: lookupswitch
        b"\xAB\x00\x00\x00\x00\x00\x23\x00\x00\x00\x03\x80\x00\x00\x00\xFF\xFF\xFF\xFF\x00\x00\x00\x00\x00",
        b"\x00\x00\x3C\x7F\xFF\xFF\xFF\x00\x00\x00\x23",
        // 76: new
        b"\xBB\x00\x01",
        // 79: pop
        b"\x57",
        // 80: aload 7
        b"\x19\x07",
        // 82: checkcast
        b"\xC0\x00\x05",
        // 85: lconst_1
        b"\x0A",
        // 86: invokeinterface
        b"\xB9\x00\x27\x03\x00",
        // 91: pop2
        b"\x58",
        // 92: aload 7
        b"\x19\x07",
        // 94: getfield
        b"\xB4\x00\x29",
        // 97: anewarray
        b"\xBD\x00\x03",
        // 100: pop
        b"\x57",
        // 101: wide iinc 299 by -300
        b"\xC4\x84\x01\x2B\xFE\xD4",
        // 107: wide iload 299
        b"\xC4\x15\x01\x2B",
        // 111: wide istore 299
        b"\xC4\x36\x01\x2B",
        // 115: goto_w 0
        b"\xC8\xFF\xFF\xFF\x8D",
        // 120: pop
        b"\x57",
        // 121: iconst_0
        b"\x03",
        // 122: ireturn
        b"\xAC",
        // 2 handlers
        b"\x00\x02",
        // from 0 to 40: 120, java/lang/ArithmeticException
        b"\x00\x00\x00\x28\x00\x78\x00\x2B",
        // from 0 to 120: 120, each throwable
        b"\x00\x00\x00\x78\x00\x78\x00\x00",
        // a StackMapTable of 5 frames
        b"\x00\x01\x00\x1F\x00\x00\x00\x11\x00\x05",
        // 0: same
        b"\x00",
        // 40: same
        b"\x27",
        // 76: same
        b"\x23",
        // 101: same
        b"\x18",
        // 120: full
        b"\xFF\x00\x12\x00\x01\x00\x00\x01\x07\x00\x2D",
    ]
}

/// A method with a frame in each form. The class has no attributes.
fn forms() -> [&'static [u8]; 31] {
    [
        // method frames
        b"\x00\x09\x00\x2F\x00\x1A",
        // its code
        b"\x00\x01\x00\x1B\x00\x00\x00\xFE",
        // 1 unit of stack, 4 of local variables, 183 bytes
        b"\x00\x01\x00\x04\x00\x00\x00\xB7",
        // 0: iload_0
        b"\x1A",
        // 1: tableswitch from 0
        b"\xAA\x00\x00\x00\x00\x00\x4F\x00\x00\x00\x00\x00\x00\x00\x0F\x00\x00\x00\x4F\x00\x00\x00\x4F\x00",
        b"\x00\x00\x4F\x00\x00\x00\x4F\x00\x00\x00\x4F\x00\x00\x00\x4F\x00\x00\x00\x4F\x00\x00\x00\x4F\x00",
        b"\x00\x00\x4F\x00\x00\x00\x4F\x00\x00\x00\x4F\x00\x00\x00\x4F\x00\x00\x00\x4F\x00\x00\x00\x4F\x00",
        b"\x00\x00\x4F\x00\x00\x00\x4F",
        // 80: iload_0
        b"\x1A",
        // 81: tableswitch from 0
        b"\xAA\x00\x00\x00\x00\x00\x4F\x00\x00\x00\x00\x00\x00\x00\x0F\x00\x00\x00\x4F\x00\x00\x00\x4F\x00",
        b"\x00\x00\x4F\x00\x00\x00\x4F\x00\x00\x00\x4F\x00\x00\x00\x4F\x00\x00\x00\x4F\x00\x00\x00\x4F\x00",
        b"\x00\x00\x4F\x00\x00\x00\x4F\x00\x00\x00\x4F\x00\x00\x00\x4F\x00\x00\x00\x4F\x00\x00\x00\x4F\x00",
        b"\x00\x00\x4F\x00\x00\x00\x4F",
        // 160: new
        b"\xBB\x00\x01",
        // 163: pop
        b"\x57",
        // 164 to 181: iload_0 and pop, nine times
        b"\x1A\x57\x1A\x57\x1A\x57\x1A\x57\x1A\x57\x1A\x57\x1A\x57\x1A\x57\x1A\x57",
        // 182: return
        b"\xB1",
        // 0 handlers
        b"\x00\x00",
        // a StackMapTable of 11 frames
        b"\x00\x01\x00\x1F\x00\x00\x00\x35\x00\x0B",
        // 80: same, far
        b"\xFB\x00\x50",
        // 160: one, far
        b"\xF7\x00\x4F\x05",
        // 164: append 3
        b"\xFE\x00\x03\x00\x04\x05",
        // 166: chop 3
        b"\xF8\x00\x01",
        // 168: append 2
        b"\xFD\x00\x01\x07\x00\x01\x08\x00\xA0",
        // 170: chop 2
        b"\xF9\x00\x01",
        // 172: append 1
        b"\xFC\x00\x01\x01",
        // 174: chop 1
        b"\xFA\x00\x01",
        // 176: same
        b"\x01",
        // 178: one
        b"\x41\x07\x00\x05",
        // 180: full
        b"\xFF\x00\x01\x00\x02\x04\x04\x00\x02\x01\x05",
        // no attributes
        b"\x00\x00",
    ]
}

/// Appends each of these parts.
fn put_parts(parts: &[&'static [u8]], into: &mut Vec<u8>) -> Result<(), Fail> {
    for part in parts {
        into.extend_from_slice(part)?;
    }
    Ok(())
}

/// The class file of `a/Whole`: 1,004 bytes.
pub(crate) fn whole(alloc: Global) -> Result<Vec<u8>, Fail> {
    let mut bytes = Vec::new(alloc);
    put_parts(&pool(), &mut bytes)?;
    put_parts(&front(), &mut bytes)?;
    put_parts(&starts(), &mut bytes)?;
    put_parts(&kinds(), &mut bytes)?;
    put_parts(&forms(), &mut bytes)?;
    Ok(bytes)
}
