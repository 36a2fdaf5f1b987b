//! Which classes are verified (JVMS SE 8 §4.10.1), as rules at each place.
#![tactic(auto)]

pub mod laws;
