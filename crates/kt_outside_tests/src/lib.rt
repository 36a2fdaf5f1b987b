//! Tests of `kt_outside`: files and streams in memory, and those of the system.
//!
//! A crate with tests is proved once more together with them, so these stand above the crate that they test.
#![tactic(auto)]

#[cfg(test)]
mod memory;
#[cfg(test)]
mod reading;
#[cfg(test)]
mod system;
