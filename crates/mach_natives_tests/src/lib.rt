//! Tests of `mach_value` and `mach_natives`: worked rows of lumps and of methods without code.
//!
//! A crate with tests is proved once more together with them, so these stand above the crates that they test.
#![tactic(auto)]

#[cfg(test)]
mod asking;
#[cfg(test)]
mod boxes;
#[cfg(test)]
mod lumps;
#[cfg(test)]
mod shown;
#[cfg(test)]
mod strings;
