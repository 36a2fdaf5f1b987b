//! Why a production wasn't read.

ghost use Rattle.kt_parser_steps.specs.declared.error.ParseError.TheVariants as parse_error;
ghost use Rattle.std.specs.Prelude.{◌≡◌};

use kt_base::NoMemory;
use std::alloc::AllocError;

/// Why a production wasn't read.
#[derive(Clone, Copy, Debug, PartialEq, Eq)]
pub enum ParseError {
    NoMemory,
    /// A token was refused. The cursor keeps the furthest one.
    Refused,
}

impl From<AllocError> for ParseError {
    ghost from_gives = { λ _ e. e ≡ parse_error.NoMemory };

    fn from(_: AllocError) -> ParseError {
        ParseError::NoMemory
    }
}

impl From<NoMemory> for ParseError {
    ghost from_gives = { λ _ e. e ≡ parse_error.NoMemory };

    fn from(_: NoMemory) -> ParseError {
        ParseError::NoMemory
    }
}
