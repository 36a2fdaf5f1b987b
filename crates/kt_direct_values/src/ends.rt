//! How code ends without a value.

ghost use Rattle.kt_direct_values.specs.declared.ends.Abrupt.TheVariants.{NoMemory};
ghost use Rattle.std.specs.Prelude.{◌≡◌};

use crate::values::DirectValue;
use kt_base::{Event, Lump};
use std::alloc::AllocError;

/// Why a coroutine goes no further.
#[derive(Drop)]
pub enum Stop {
    /// A charge found no turn left.
    TurnsSpent,
    /// A draw or a launch found no number left.
    NumbersSpent,
    /// The event has no answer.
    Asks(Event<Lump>),
    /// An operation met a value that it doesn't take, or an answer of another kind.
    Unfit,
    /// The bound on calls and on turns of loops was met.
    BoundMet,
}

/// How code ends without a value.
#[derive(Drop)]
pub enum Abrupt {
    /// Memory ran out, or calls went deeper than the stack may go.
    NoMemory,
    Thrown(DirectValue),
    Returned(DirectValue),
    /// By `break`.
    Broken,
    /// By `continue`.
    Continued,
    Stopped(Stop),
}

impl From<AllocError> for Abrupt {
    ghost from_gives = { λ _ e. e ≡ NoMemory };

    fn from(_: AllocError) -> Abrupt {
        Abrupt::NoMemory
    }
}

/// What goes wrong at run time, so that the language throws.
#[derive(Clone, Copy, Debug, PartialEq, Eq)]
pub enum Fault {
    /// `/` or `%` by zero.
    ZeroDivisor,
    /// An index outside of an array.
    ArrayIndex(i32),
    /// An index outside of a string, or a bound of `substring`.
    TextIndex(i32),
    /// The size of a new array is below zero.
    NegativeSize(i32),
    /// `as` to a type that the value isn't of.
    FailedCast,
    /// `!!` on null.
    NullAsserted,
    /// A text of more than 16,777,216 units.
    TextTooLong,
    /// `resume` on a continuation that has its outcome.
    AlreadyResumed,
}
