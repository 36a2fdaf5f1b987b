//! Tests of the crates of the class file format and of the machine's own classes: tables worked out by hand from the
//! standard, and each call that takes memory on its happy path.
//!
//! A crate with tests is proved once more together with them, so these stand above the crates that they test.
#![tactic(auto)]

#[cfg(test)]
mod frames;
#[cfg(test)]
mod pools;
#[cfg(test)]
mod raw_entries;
#[cfg(test)]
mod runtime_classes;
