//! Tests of the crates of types: worked rows, deep and wide hierarchies, and each public call on its happy path.
//!
//! A crate with tests is proved once more together with them, so these stand above the crates that they test.
#![tactic(auto)]

#[cfg(test)]
mod builtins;
#[cfg(test)]
mod deep;
#[cfg(test)]
mod kinds;
#[cfg(test)]
mod samples;
#[cfg(test)]
mod subtyping;
