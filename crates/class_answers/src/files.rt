//! Files that a tool reads.

ghost use Rattle.class_answers.specs.Naming.{IsUnread, MayHold};
ghost use Rattle.std.specs.Prelude.{◌≡◌, IfErr, IfOk, OnOk};

use crate::answers::Answer;
use kt_outside::{FileErr, Files};
use std::alloc::Global;

/// The bytes of the file of this name, or the answer that it can't be read or that memory was refused.
pub fn read_file<F: Files>(alloc: Global, name: &str, files: &mut F) -> Result<Vec<u8>, Answer>
    ensures read { IfOk result (λ bytes. MayHold (F.held files.old) name.now bytes.items) }
    ensures no_fault { OnOk result (F.read_faults files.new ≡ F.read_faults files.old) }
    ensures unread { IfErr result
        (λ answer. IsUnread name.now (F.read_faults files.old) (F.read_faults files.new) answer) }
    ensures files_stay { F.held files.new ≡ F.held files.old }
    ensures no_put { F.put_faults files.new ≡ F.put_faults files.old }
{
    let mut bytes = Vec::new(alloc);
    match files.read(name, &mut bytes) {
        Ok(()) => Ok(bytes),
        Err(FileErr::Failed) => Err(Answer::cannot_read(alloc, name)),
        Err(FileErr::NoMemory) => Err(Answer::NoMemory),
    }
}
