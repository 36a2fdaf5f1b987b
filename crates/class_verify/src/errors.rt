//! Why classes aren't verified.

ghost use Rattle.class_verify.specs.declared.errors.VerifyError.TheVariants as verify_error;
ghost use Rattle.std.specs.Prelude.{◌≡◌};

use kt_base::{Name, NoMemory};
use std::alloc::AllocError;
use thiserror::Error;

/// Why classes aren't verified.
#[derive(Debug, Drop, Error)]
pub enum VerifyError {
    /// A rule fails: in this class, in this method of it, counted from 1, at this offset of its code. Method 0 is the
    /// class itself.
    #[error("rejected")]
    Rejected {
        class: Name,
        method: u32,
        offset: u32,
    },
    #[error("out of memory")]
    NoMemory,
}

impl From<NoMemory> for VerifyError {
    ghost from_gives = { λ _ e. e ≡ verify_error.NoMemory };

    fn from(_: NoMemory) -> VerifyError {
        VerifyError::NoMemory
    }
}

impl From<AllocError> for VerifyError {
    ghost from_gives = { λ _ e. e ≡ verify_error.NoMemory };

    fn from(_: AllocError) -> VerifyError {
        VerifyError::NoMemory
    }
}
