//! Whether a list of instructions is code (JVMS SE 8 §4.9.1).

ghost use Rattle.std.specs.Prelude.{◌+◌, ◌↔◌, IsTrue};
ghost use Rattle.jvm_code.specs.Spelling.{Follows};
ghost use Rattle.jvm_code.specs.Decoding.{rows, IsLaid};

use crate::targets::bad_target;
use jvm_code_instructions::{Instr, is_allowed, size_of};

/// Whether each offset is that of the instruction before and its size, and each row allows its operands.
fn follows(code: &[(u32, Instr)]) -> bool
    ensures { IsTrue result ↔ Follows 0 (rows code.now) }
{
    let mut next = 0u64;
    for item in code {
        let at = item.0;
        if at as u64 != next {
            return false;
        }
        if !is_allowed(&item.1) {
            return false;
        }
        next = at as u64 + size_of(at, &item.1);
    }
    true
}

/// Whether a list of instructions, each with its offset, is code: the offsets follow the sizes from 0, each row allows
/// its operands, and each target is an offset of the list that its distance reaches: from -32,768 to 32,767 for two
/// bytes, from -2,147,483,648 to 2,147,483,647 for four (JVMS SE 8 §4.9.1, §6.5). Takes no memory.
pub fn laid(code: &[(u32, Instr)]) -> bool
    ensures { IsTrue result ↔ IsLaid (rows code.now) }
{
    if !follows(code) {
        return false;
    }
    bad_target(code).is_none()
}
