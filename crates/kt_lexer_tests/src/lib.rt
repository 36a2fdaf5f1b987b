//! Tests of the lexer.
//!
//! A crate with tests is proved once more together with them, so these stand above the crate that they test.
#![tactic(auto)]

#[cfg(test)]
mod texts;
