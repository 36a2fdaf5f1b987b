//! Why a source text is refused, and where.

ghost use Rattle.kt_base.specs.Refusals.{front_err_text, kind_text, pos_text, refusal_text};
ghost use Rattle.kt_base.specs.declared.refusals.FrontErr.TheVariants as front_err;
ghost use Rattle.std.specs.Prelude.{◌≡◌, Some};

use crate::errors::NoMemory;
use std::alloc::{AllocError, AllocFailed};
use std::error::Error;
use std::fmt;

/// A place in a source text. Lines and columns count from 1; a column is one Unicode scalar value.
#[derive(Clone, Copy, Debug, PartialEq, Eq, PartialOrd, Ord, Hash)]
pub struct Pos {
    pub line: u32,
    pub column: u32,
}

impl fmt::Display for Pos {
    ghost output = { λ x. Some (pos_text x) };

    fn fmt<W: fmt::Write>(&self, f: &mut fmt::Formatter<W>) -> fmt::Result {
        let line = self.line;
        let column = self.column;
        write!(f, "{line}:{column}")
    }
}

/// The stage of the front end that refused a text, in the order in which they are tried.
#[derive(Clone, Copy, Debug, PartialEq, Eq, PartialOrd, Ord, Hash)]
pub enum Kind {
    /// The characters are no tokens.
    Lex = 1,
    /// The tokens are no sentence.
    Syntax = 2,
    /// A name, a type or a rule on declarations doesn't hold.
    Typing = 3,
    /// Two coroutines could both change one value.
    Share = 4,
    /// A limit of the language is passed.
    Size = 5,
}

impl fmt::Display for Kind {
    ghost output = { λ x. Some (kind_text x) };

    fn fmt<W: fmt::Write>(&self, f: &mut fmt::Formatter<W>) -> fmt::Result {
        f.write_str(match self {
            Kind::Lex => "Lex",
            Kind::Syntax => "Syntax",
            Kind::Typing => "Type",
            Kind::Share => "Share",
            Kind::Size => "Size",
        })
    }
}

/// The first stage that a text fails, and the place that is blamed.
#[derive(Clone, Copy, Debug, PartialEq, Eq, Hash)]
pub struct Refusal {
    pub kind: Kind,
    pub pos: Pos,
}

impl fmt::Display for Refusal {
    ghost output = { λ x. Some (refusal_text x) };

    fn fmt<W: fmt::Write>(&self, f: &mut fmt::Formatter<W>) -> fmt::Result {
        let pos = self.pos;
        let kind = self.kind;
        write!(f, "{pos}: {kind}")
    }
}

/// What a call of the front end answers in place of a result.
#[derive(Clone, Copy, Debug, PartialEq, Eq, Hash)]
pub enum FrontErr {
    Refused(Refusal),
    NoMemory,
}

/// Written by hand, since what a derive writes has no contract.
impl fmt::Display for FrontErr {
    ghost output = { λ x. Some (front_err_text x) };

    fn fmt<W: fmt::Write>(&self, f: &mut fmt::Formatter<W>) -> fmt::Result {
        match self {
            FrontErr::Refused(refusal) => refusal.fmt(f),
            FrontErr::NoMemory => f.write_str("out of memory"),
        }
    }
}

impl Error for FrontErr {}

impl From<NoMemory> for FrontErr {
    ghost from_gives = { λ _ e. e ≡ front_err.NoMemory };

    fn from(_: NoMemory) -> FrontErr {
        FrontErr::NoMemory
    }
}

impl From<AllocError> for FrontErr {
    ghost from_gives = { λ _ e. e ≡ front_err.NoMemory };

    fn from(_: AllocError) -> FrontErr {
        FrontErr::NoMemory
    }
}

impl<T: Drop> From<AllocFailed<T>> for FrontErr {
    ghost from_gives = { λ _ e. e ≡ front_err.NoMemory };

    fn from(_: AllocFailed<T>) -> FrontErr {
        FrontErr::NoMemory
    }
}
