//! Expressions that are typed over their typed parts.
#![tactic(auto)]

pub mod choosing;
pub mod learning;
pub mod literals;
pub mod operators;
