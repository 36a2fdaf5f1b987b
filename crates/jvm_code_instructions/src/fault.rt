//! What is wrong with one instruction.

ghost use Rattle.std.specs.Prelude.{◌≡◌};
ghost use Rattle.jvm_code_instructions.specs.declared.fault.Fault.TheVariants.{NoMemory};

use std::alloc::{AllocError, AllocFailed};
use thiserror::Error;

/// Why no instruction could be read from the front of bytes.
#[derive(Debug, Drop, PartialEq, Eq, Error)]
pub enum Fault {
    /// No instruction has this opcode, or an operand is one that its row doesn't allow.
    #[error("no instruction begins so")]
    BadOpcode,
    /// The bytes end within an instruction whose operands are allowed as far as they are there whole.
    #[error("the bytes end within the instruction")]
    Cut,
    /// Memory ran out.
    #[error("out of memory")]
    NoMemory,
}

impl From<AllocError> for Fault {
    ghost from_gives = { λ _ e. e ≡ NoMemory };

    fn from(_e: AllocError) -> Fault {
        Fault::NoMemory
    }
}

impl<T: Drop> From<AllocFailed<T>> for Fault {
    ghost from_gives = { λ _ e. e ≡ NoMemory };

    fn from(_e: AllocFailed<T>) -> Fault {
        Fault::NoMemory
    }
}
