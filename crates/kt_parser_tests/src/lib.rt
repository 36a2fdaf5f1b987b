//! Tests of the parsers of types, expressions, statements and files over lists of tokens.
//!
//! A crate with tests is proved once more together with them, so these stand above the crates that they test.
#![tactic(auto)]

#[cfg(test)]
mod cursor;
#[cfg(test)]
mod declarations;
#[cfg(test)]
mod expressions;
#[cfg(test)]
mod types;
