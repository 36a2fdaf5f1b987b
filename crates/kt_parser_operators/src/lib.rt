//! The parser of operators and suffixes.
#![tactic(auto)]

pub mod operators;
mod suffixes;

pub use operators::Operators;
