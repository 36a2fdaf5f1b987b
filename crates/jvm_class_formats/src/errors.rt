//! Why bytes aren't read.

ghost use Rattle.jvm_class_formats.specs.declared.errors.ReadErr.TheVariants as read_err;
ghost use Rattle.std.specs.Prelude.{◌≡◌};

use kt_base::NoMemory;
use std::alloc::{AllocError, AllocFailed};
use thiserror::Error;

/// Why bytes give no class, or no part of one.
#[derive(Clone, Copy, Debug, PartialEq, Eq, Hash, Error)]
pub enum ReadErr {
    /// No class has this spelling. The offset is that of the first item that breaks its rule, or the file's length.
    #[error("no class file: offset {offset}")]
    BadBytes { offset: u64 },
    #[error("out of memory")]
    NoMemory,
}

impl From<NoMemory> for ReadErr {
    ghost from_gives = { λ _ e. e ≡ read_err.NoMemory };

    fn from(_: NoMemory) -> ReadErr {
        ReadErr::NoMemory
    }
}

impl From<AllocError> for ReadErr {
    ghost from_gives = { λ _ e. e ≡ read_err.NoMemory };

    fn from(_: AllocError) -> ReadErr {
        ReadErr::NoMemory
    }
}

impl<T: Drop> From<AllocFailed<T>> for ReadErr {
    ghost from_gives = { λ _ e. e ≡ read_err.NoMemory };

    fn from(_: AllocFailed<T>) -> ReadErr {
        ReadErr::NoMemory
    }
}
