//! Bytes to code, in two passes (JVMS SE 8 §4.7.3, §4.9.1).

ghost use Rattle.std.specs.Prelude.{◌≡◌, ◌<◌, ◌^◌, ℕ, List, length, Ok, IfOk, IfErr};
ghost use Rattle.jvm_code_instructions.specs.Table.{Row};
ghost use Rattle.jvm_code.specs.Spelling.{spelling};
ghost use Rattle.jvm_code.specs.Decoding.{Decodes, rows, placed, rows_at, decode_of, IsLaid};
ghost use Rattle.jvm_code.specs.Refusals.{WhyNot};

use crate::error::CodeErr;
use crate::targets::bad_target;
use jvm_code_instructions::{Fault, Instr, instr_of};
use std::alloc::Global;

fn error_of(fault: Fault, at: u32) -> CodeErr
    ensures { result ≡ placed fault at }
{
    match fault {
        Fault::BadOpcode => CodeErr::BadOpcode { offset: at },
        Fault::Cut => CodeErr::Cut { offset: at },
        Fault::NoMemory => CodeErr::NoMemory,
    }
}

/// The first pass: opcodes and cuts, from the front.
fn instrs_of(alloc: Global, bytes: &[u8]) -> Result<Vec<(u32, Instr)>, CodeErr>
    requires { length bytes.now < 2 ^ 32 }
    ensures { Decodes (λ v. rows v.items) result (rows_at (length bytes.now) (length bytes.now) bytes.now) }
{
    let mut code = Vec::new(alloc);
    let mut rest = bytes;
    while !rest.is_empty() {
        let at = (bytes.len() - rest.len()) as u32;
        match instr_of(alloc, at, rest) {
            Ok((instr, after)) => {
                code.push((at, instr))?;
                rest = after;
            }
            Err(fault) => return Err(error_of(fault, at)),
        }
    }
    Ok(code)
}

#[tactic(auto, unfolding(crate::specs::Decoding::decode_of))]
fn code_of(alloc: Global, bytes: &[u8]) -> Result<Vec<(u32, Instr)>, CodeErr>
    requires { length bytes.now < 2 ^ 32 }
    ensures { Decodes (λ v. rows v.items) result (decode_of bytes.now) }
{
    let code = instrs_of(alloc, bytes)?;
    match bad_target(&code) {
        None => Ok(code),
        Some(at) => Err(CodeErr::BadTarget { offset: at }),
    }
}

/// The code that the bytes spell, all of them: each instruction with its offset, in order (JVMS SE 8 §4.7.3).
///
/// The errors come exactly where no code spells the bytes, in the order of two passes: `BadOpcode` and `Cut` at the
/// first instruction that can't be read, from the front; then `BadTarget` at the first instruction that jumps to where
/// none begins. Each has the offset of the start of the instruction. `BadOpcode` stands for an opcode that the table
/// doesn't have and for an operand that its row doesn't allow: padding or a last byte that isn't zero, a count of zero
/// at *invokeinterface*, another array type than `int`, a `low` above its `high`, numbers of a *lookupswitch* that
/// don't ascend strictly, a negative count, a wide form of another instruction. `Cut` stands for bytes that end within
/// an instruction whose operands are allowed as far as they are there whole.
pub fn decode(alloc: Global, bytes: &[u8]) -> Result<Vec<(u32, Instr)>, CodeErr>
    requires { length bytes.now < 2 ^ 32 }
    // What is decoded is laid, and spells the bytes.
    ensures found { IfOk result (λ v. IsLaid (rows v.items) × (bytes.now ≡ spelling (rows v.items))) }
    // What is laid and spells the bytes is decoded, unless memory runs out.
    ensures only { (c : List (ℕ × Row)) → IsLaid c → bytes.now ≡ spelling c
        → Decodes (λ v. rows v.items) result (Ok c) }
    // Each error says what is wrong, and where.
    ensures why { IfErr result (λ e. WhyNot bytes.now e) }
    // Which error it is, in the order of the passes.
    ensures exact { Decodes (λ v. rows v.items) result (decode_of bytes.now) }
{
    code_of(alloc, bytes)
}
