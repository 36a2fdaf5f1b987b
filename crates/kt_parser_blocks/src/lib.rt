//! The parser of blocks, lambda literals, `if`, `when` and `try`, over function values that read expressions and statements.
#![tactic(auto)]

pub mod below;
mod conditionals;
mod lambdas;
mod tries;

pub use below::{Below, Precedence};
