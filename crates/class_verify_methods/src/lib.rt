//! Methods as they are verified: entries of exception tables, frames, and the first offset at which a rule fails.
#![tactic(auto)]

pub mod faults;
pub mod parts;
pub mod sizes;
pub mod whole;

pub use whole::first_fault;
