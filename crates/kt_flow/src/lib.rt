//! Facts on a path: which types a local has beside the declared one, and whether it is assigned.
//!
//! The folder `specs/` has them as plain data, on which the rules of typing stand.
#![tactic(auto)]

pub mod facts;

pub use facts::{Facts, LocalFacts};
