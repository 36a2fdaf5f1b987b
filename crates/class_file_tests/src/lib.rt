//! Tests of the reader and the writer of class files: tables worked out by hand from the standard.
//!
//! A crate with tests is proved once more together with them, so these stand above the crates that they test.
#![tactic(auto)]

#[cfg(test)]
mod lengths;
#[cfg(test)]
mod parts;
#[cfg(test)]
mod slips;
#[cfg(test)]
mod small;
#[cfg(test)]
mod telling;
#[cfg(test)]
mod whole;
