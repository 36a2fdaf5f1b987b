//! Declarations of locals, assignments to them, and steps on them, over their typed parts.
#![tactic(auto)]

pub mod assigning;
pub mod declaring;
pub mod lookups;
pub mod values;
