//! Writing a class file.

ghost use Rattle.jvm_class_first.specs.ClassFile.{IsClassOf, magic, version};
ghost use Rattle.kt_base.specs.StackCode.{nothing, runs};
ghost use Rattle.std.specs.Prelude.{◌≤◌, length, IfOk, IsSome};

use crate::members::class_draft;
use crate::pool_bytes::put_pool;
use kt_base::{NoMemory, Plain};
use std::alloc::Global;

/// How a class file begins: the magic number, minor version 0, major version 52 (JVMS SE 8 §4.1).
pub const HEAD: [u8; 8] = [0xCA, 0xFE, 0xBA, 0xBE, 0, 0, 0, 52];

/// The class file of code that runs from an empty stack and has 512 steps at most.
pub fn write_plain(alloc: Global, code: &[Plain]) -> Result<Vec<u8>, NoMemory>
    requires steps { length code.now ≤ 512 }
    requires runs { IsSome (runs code.now nothing) }
    ensures { IfOk result (λ bytes. IsClassOf bytes.items code.now) }
{
    let draft = class_draft(alloc, code)?;
    let mut bytes = Vec::from_slice(alloc, &HEAD)?;
    put_pool(draft.pool(), alloc, &mut bytes)?;
    bytes.extend_from_slice(draft.body())?;
    Ok(bytes)
}
