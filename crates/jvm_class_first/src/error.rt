//! Why bytes aren't read.

ghost use Rattle.jvm_class_first.specs.declared.error.PlainErr.TheVariants as plain_err;
ghost use Rattle.std.specs.Prelude.{◌≡◌};

use kt_base::NoMemory;
use std::alloc::{AllocError, AllocFailed};
use thiserror::Error;

/// Why bytes give no code.
#[derive(Clone, Copy, Debug, PartialEq, Eq, Hash, Error)]
pub enum PlainErr {
    /// The bytes aren't the class file of any code that prints numbers.
    #[error("no class file of a program that prints numbers")]
    NotPlain,
    #[error("out of memory")]
    NoMemory,
}

impl From<NoMemory> for PlainErr {
    ghost from_gives = { λ _ e. e ≡ plain_err.NoMemory };

    fn from(_: NoMemory) -> PlainErr {
        PlainErr::NoMemory
    }
}

impl From<AllocError> for PlainErr {
    ghost from_gives = { λ _ e. e ≡ plain_err.NoMemory };

    fn from(_: AllocError) -> PlainErr {
        PlainErr::NoMemory
    }
}

impl<T: Drop> From<AllocFailed<T>> for PlainErr {
    ghost from_gives = { λ _ e. e ≡ plain_err.NoMemory };

    fn from(_: AllocFailed<T>) -> PlainErr {
        PlainErr::NoMemory
    }
}
