//! The parser of primary expressions: strings, literals, names, jumps, and what stands in parentheses or braces.
#![tactic(auto)]

mod parts;
pub mod primaries;
mod strings;

pub use primaries::Primaries;
