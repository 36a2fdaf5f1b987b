//! Which names a scope has taken.
#![tactic(auto)]

pub mod taken;

pub use taken::TakenNames;
