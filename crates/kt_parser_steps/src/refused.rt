//! Why a step that takes no memory wasn't taken.

ghost use Rattle.kt_parser_steps.specs.declared.error.ParseError.TheVariants as parse_error;
ghost use Rattle.std.specs.Prelude.{◌≡◌};

use crate::error::ParseError;

/// Another token stands where a step has its own. The cursor keeps the place. Nothing else stops a step that takes no
/// memory.
#[derive(Clone, Copy, Debug, PartialEq, Eq)]
pub struct Refused;

impl From<Refused> for ParseError {
    ghost from_gives = { λ _ e. e ≡ parse_error.Refused };

    fn from(_: Refused) -> ParseError {
        ParseError::Refused
    }
}
