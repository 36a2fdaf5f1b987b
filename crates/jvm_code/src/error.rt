//! Why bytes are no code.

ghost use Rattle.std.specs.Prelude.{◌≡◌};
ghost use Rattle.jvm_code.specs.declared.error.CodeErr.TheVariants as code_err;

use kt_base::NoMemory;
use std::alloc::{AllocError, AllocFailed};
use thiserror::Error;

/// Why bytes are no code. Each offset is that of the start of an instruction.
#[derive(Debug, Drop, PartialEq, Eq, Error)]
pub enum CodeErr {
    /// No instruction has this opcode, or an operand is one that its row doesn't allow.
    #[error("no instruction begins at offset {offset}")]
    BadOpcode { offset: u32 },
    /// The bytes end within an instruction whose operands are allowed as far as they are there whole.
    #[error("the bytes end within the instruction at offset {offset}")]
    Cut { offset: u32 },
    /// The instruction jumps to an offset at which none begins.
    #[error("the instruction at offset {offset} has a target at which no instruction begins")]
    BadTarget { offset: u32 },
    /// Memory ran out.
    #[error("out of memory")]
    NoMemory,
}

impl From<NoMemory> for CodeErr {
    ghost from_gives = { λ _ e. e ≡ code_err.NoMemory };

    fn from(_: NoMemory) -> CodeErr {
        CodeErr::NoMemory
    }
}

impl From<AllocError> for CodeErr {
    ghost from_gives = { λ _ e. e ≡ code_err.NoMemory };

    fn from(_e: AllocError) -> CodeErr {
        CodeErr::NoMemory
    }
}

impl<T: Drop> From<AllocFailed<T>> for CodeErr {
    ghost from_gives = { λ _ e. e ≡ code_err.NoMemory };

    fn from(_e: AllocFailed<T>) -> CodeErr {
        CodeErr::NoMemory
    }
}
