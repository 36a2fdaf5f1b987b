//! Tests of the syntax tree and of the makers of its nodes.
//!
//! A crate with tests is proved once more together with them, so these stand above the crates that they test.
#![tactic(auto)]

#[cfg(test)]
mod nodes;
#[cfg(test)]
mod stages;
#[cfg(test)]
mod trees;
