//! Tests of the way from a source text to its tree, and to the code of the first subset.
//!
//! A crate with tests is proved once more together with them, so these stand above the crates that they test.
#![tactic(auto)]

#[cfg(test)]
mod first;
#[cfg(test)]
mod rows;
#[cfg(test)]
mod sources;
