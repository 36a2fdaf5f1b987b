//! The code of a text of the first subset.

ghost use Rattle.kt_base.specs.StackCode.{Prints};
ghost use Rattle.kt_first.specs.Programs.{Program, code_of, values_of};
ghost use Rattle.kt_first.specs.Trees.{IsFirst};
ghost use Rattle.kt_first.specs.declared.reading.FirstErr.TheVariants as first_err;
ghost use Rattle.std.specs.Prelude.{◌≡◌, ◌≤◌, length, IfOk, MatchResult};

use crate::files::program_code;
use kt_base::{FrontErr, Plain};
use kt_lexer::lex_bytes;
use kt_parser::parse;
use std::alloc::{AllocError, AllocFailed, Global};
use thiserror::Error;

/// Why a text has no code.
#[derive(Clone, Copy, Debug, PartialEq, Eq, Hash, Error)]
pub enum FirstErr {
    /// The text isn't in the first subset.
    #[error("not built yet")]
    NotBuilt,
    #[error("out of memory")]
    NoMemory,
}

impl From<AllocError> for FirstErr {
    ghost from_gives = { λ _ e. e ≡ first_err.NoMemory };

    fn from(_: AllocError) -> FirstErr {
        FirstErr::NoMemory
    }
}

impl<T: Drop> From<AllocFailed<T>> for FirstErr {
    ghost from_gives = { λ _ e. e ≡ first_err.NoMemory };

    fn from(_: AllocFailed<T>) -> FirstErr {
        FirstErr::NoMemory
    }
}

/// A text that the front end refuses isn't in the first subset.
impl From<FrontErr> for FirstErr {
    ghost use Rattle.kt_first.specs.Answers.{first_err_of};

    ghost from_gives = { λ from e. e ≡ first_err_of from };

    fn from(error: FrontErr) -> FirstErr {
        match error {
            FrontErr::Refused(_) => FirstErr::NotBuilt,
            FrontErr::NoMemory => FirstErr::NoMemory,
        }
    }
}

/// How many bytes a text of the first subset has at most.
const MOST_BYTES: usize = 512;

/// The code of a text: the operands first, then the operator, and behind each expression that it is printed.
///
/// `NotBuilt` comes exactly where the text isn't in the first subset.
pub fn parse_first(alloc: Global, text: &[u8]) -> Result<Vec<Plain>, FirstErr>
    ensures read { IfOk result (λ code. (p : Program) × IsFirst text.now p × (code.items ≡ code_of p)) }
    ensures prints { IfOk result (λ code. (p : Program) → IsFirst text.now p → Prints code.items (values_of p)) }
    ensures short { IfOk result (λ code. length code.items ≤ 512) }
    ensures only { (p : Program) → IsFirst text.now p
        → MatchResult result (λ code. code.items ≡ code_of p) (λ e. e ≡ first_err.NoMemory) }
{
    if text.len() <= MOST_BYTES {
        let tokens = lex_bytes(alloc, text)?;
        let file = parse(alloc, tokens.as_slice())?;
        program_code(alloc, tokens.as_slice(), &file)
    } else {
        Err(FirstErr::NotBuilt)
    }
}
