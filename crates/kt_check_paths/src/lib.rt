//! Facts where paths join.
#![tactic(auto)]

pub mod joining;
pub mod rows;
