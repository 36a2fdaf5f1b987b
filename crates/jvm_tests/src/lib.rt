//! Tests of the crates of class files: outside vectors, limits, exact texts, and each call that takes memory on its
//! happy path.
//!
//! A crate with tests is proved once more together with them, so these stand above the crates that they test.
#![tactic(auto)]

#[cfg(test)]
mod code;
#[cfg(test)]
mod descriptors;
#[cfg(test)]
mod first_classes;
#[cfg(test)]
mod instructions;
#[cfg(test)]
mod pieces;
#[cfg(test)]
mod pools;
#[cfg(test)]
mod texts;
