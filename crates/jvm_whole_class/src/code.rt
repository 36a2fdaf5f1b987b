//! The bytes of the code of the methods, instruction by instruction (JVMS SE 8 §6.5).

use crate::errors::Unbuilt;
use jvm_code::{Instr, decode};
use std::alloc::Global;

/// The code of the constructor.
pub(crate) fn constructor() -> &'static [&'static [u8]] {
    &[
        // 0: aload_0
        b"\x2A",
        // 1: iload_1
        b"\x1B",
        // 2: ifeq 5
        b"\x99\x00\x03",
        // 5: invokespecial
        b"\xB7\x00\x1C",
        // 8: return
        b"\xB1",
    ]
}

/// Code with each kind of mention, both switches and wide forms.
pub(crate) fn mentions() -> &'static [&'static [u8]] {
    &[
        // 0: ldc_w 1000000
        b"\x13\x00\x22",
        // 3: pop
        b"\x57",
        // 4: ldc_w text
        b"\x13\x00\x23",
        // 7: pop
        b"\x57",
        // 8: ldc2_w
        b"\x14\x00\x25",
        // 11: pop2
        b"\x58",
        // 12: iload 0
        b"\x15\x00",
        // 14: tableswitch from -1
        b"\xAA\x00\x00\x00\x00\x57\xFF\xFF\xFF\xFF\x00\x00\x00\x01\x00\x00\x00\x1A\x00\x00\x00\x57\x00\x00",
        b"\x00\x3E",
        // 40: iload_0
        b"\x1A",
        // 41: lookupswitch
        b"\xAB\x00\x00\x00\x00\x00\x23\x00\x00\x00\x03\x80\x00\x00\x00\xFF\xFF\xFF\xFF\x00\x00\x00\x00\x00",
        b"\x00\x00\x3C\x7F\xFF\xFF\xFF\x00\x00\x00\x23",
        // 76: new
        b"\xBB\x00\x01",
        // 79: pop
        b"\x57",
        // 80: aload 7
        b"\x19\x07",
        // 82: checkcast
        b"\xC0\x00\x05",
        // 85: lconst_1
        b"\x0A",
        // 86: invokeinterface
        b"\xB9\x00\x27\x03\x00",
        // 91: pop2
        b"\x58",
        // 92: aload 7
        b"\x19\x07",
        // 94: getfield
        b"\xB4\x00\x29",
        // 97: anewarray
        b"\xBD\x00\x03",
        // 100: pop
        b"\x57",
        // 101: wide iinc 299 by -300
        b"\xC4\x84\x01\x2B\xFE\xD4",
        // 107: wide iload 299
        b"\xC4\x15\x01\x2B",
        // 111: wide istore 299
        b"\xC4\x36\x01\x2B",
        // 115: goto_w 0
        b"\xC8\xFF\xFF\xFF\x8D",
        // 120: pop
        b"\x57",
        // 121: iconst_0
        b"\x03",
        // 122: ireturn
        b"\xAC",
    ]
}

/// Code with room for a frame in each form.
pub(crate) fn forms() -> &'static [&'static [u8]] {
    &[
        // 0: iload_0
        b"\x1A",
        // 1: tableswitch from 0
        b"\xAA\x00\x00\x00\x00\x00\x4F\x00\x00\x00\x00\x00\x00\x00\x0F\x00\x00\x00\x4F\x00\x00\x00\x4F\x00",
        b"\x00\x00\x4F\x00\x00\x00\x4F\x00\x00\x00\x4F\x00\x00\x00\x4F\x00\x00\x00\x4F\x00\x00\x00\x4F\x00",
        b"\x00\x00\x4F\x00\x00\x00\x4F\x00\x00\x00\x4F\x00\x00\x00\x4F\x00\x00\x00\x4F\x00\x00\x00\x4F\x00",
        b"\x00\x00\x4F\x00\x00\x00\x4F",
        // 80: iload_0
        b"\x1A",
        // 81: tableswitch from 0
        b"\xAA\x00\x00\x00\x00\x00\x4F\x00\x00\x00\x00\x00\x00\x00\x0F\x00\x00\x00\x4F\x00\x00\x00\x4F\x00",
        b"\x00\x00\x4F\x00\x00\x00\x4F\x00\x00\x00\x4F\x00\x00\x00\x4F\x00\x00\x00\x4F\x00\x00\x00\x4F\x00",
        b"\x00\x00\x4F\x00\x00\x00\x4F\x00\x00\x00\x4F\x00\x00\x00\x4F\x00\x00\x00\x4F\x00\x00\x00\x4F\x00",
        b"\x00\x00\x4F\x00\x00\x00\x4F",
        // 160: new
        b"\xBB\x00\x01",
        // 163: pop
        b"\x57",
        // 164 to 181: iload_0 and pop, nine times
        b"\x1A\x57\x1A\x57\x1A\x57\x1A\x57\x1A\x57\x1A\x57\x1A\x57\x1A\x57\x1A\x57",
        // 182: return
        b"\xB1",
    ]
}

/// The bytes of these parts.
fn joined(alloc: Global, parts: &[&'static [u8]]) -> Result<Vec<u8>, Unbuilt> {
    let mut bytes = Vec::new(alloc);
    for part in parts {
        bytes.extend_from_slice(part)?;
    }
    Ok(bytes)
}

/// The instructions whose bytes these are.
pub(crate) fn instructions(
    alloc: Global,
    parts: &[&'static [u8]],
) -> Result<Vec<(u32, Instr)>, Unbuilt> {
    let bytes = joined(alloc, parts)?;
    if bytes.len() < 65536 {
        Ok(decode(alloc, &bytes)?)
    } else {
        Err(Unbuilt::Code)
    }
}
