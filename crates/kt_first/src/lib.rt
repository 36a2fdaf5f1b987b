//! The first subset of the language: programs whose `main` prints sums, differences and products of numbers, and their
//! code. It serves until typed trees are compiled.
#![tactic(auto)]

mod expressions;
mod files;
mod laws;
mod reading;

pub use laws::one_meaning;
pub use reading::{FirstErr, parse_first};
