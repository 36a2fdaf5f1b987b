//! Tests of `kt_base`: outside vectors, and each call that takes memory on its happy path.
//!
//! A crate with tests is proved once more together with them, so these stand above the crate that they test.
#![tactic(auto)]

#[cfg(test)]
mod printed;
#[cfg(test)]
mod texts;
