//! Reading a class file.

ghost use Rattle.jvm_class_first.specs.ClassFile.{IsClassOf};
ghost use Rattle.jvm_class_first.specs.Instructions.{IsPlainCode};
ghost use Rattle.std.specs.Prelude.{◌≡◌, List, IfOk, IsTrue, MatchResult};

use crate::error::PlainErr;
use crate::finding::{MOST_STEPS, code_of};
use crate::heights::max_stack;
use crate::writing::write_plain;
use kt_base::{NoMemory, Plain};
use std::alloc::Global;

/// The code that the bytes are the class file of.
///
/// NotPlain comes exactly where the bytes are the class file of no code: where one byte is another one, where bytes are
/// missing or too many, where the code doesn't run from an empty stack or has more than 512 steps.
pub fn read_plain(alloc: Global, bytes: &[u8]) -> Result<Vec<Plain>, PlainErr>
    ensures found { IfOk result (λ code. IsClassOf bytes.now code.items) }
    ensures only { (code : List Plain) → IsClassOf bytes.now code
        → MatchResult result (λ found. found.items ≡ code) (λ e. e ≡ PlainErr.NoMemory) }
{
    match code_of(alloc, bytes)? {
        Some(code) => confirmed(alloc, bytes, code),
        None => Err(PlainErr::NotPlain),
    }
}

/// The code that was found, where the bytes are its class file.
fn confirmed(alloc: Global, bytes: &[u8], code: Vec<Plain>) -> Result<Vec<Plain>, PlainErr>
    ensures found { IfOk result (λ found. IsClassOf bytes.now found.items) }
    ensures only { IsClassOf bytes.now code.items → MatchResult result (λ found. found.items ≡ code.items)
        (λ e. e ≡ PlainErr.NoMemory) }
{
    if is_class_of(alloc, bytes, code.as_slice())? {
        Ok(code)
    } else {
        Err(PlainErr::NotPlain)
    }
}

/// Whether the bytes are the class file of this code: whether it is written so.
fn is_class_of(alloc: Global, bytes: &[u8], code: &[Plain]) -> Result<bool, NoMemory>
    ensures yes { IfOk result (λ is. IsTrue is → IsClassOf bytes.now code.now) }
    ensures no { IfOk result (λ is. IsClassOf bytes.now code.now → IsTrue is) }
{
    if is_plain_code(code) {
        let written = write_plain(alloc, code)?;
        Ok(written.as_slice() == bytes)
    } else {
        Ok(false)
    }
}

/// Whether the code runs from an empty stack and has 512 steps at most.
pub fn is_plain_code(code: &[Plain]) -> bool
    ensures yes { IsTrue result → IsPlainCode code.now }
    ensures no { IsPlainCode code.now → IsTrue result }
{
    code.len() <= MOST_STEPS && max_stack(code).is_some()
}
