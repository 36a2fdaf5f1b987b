//! The direct meaning of a typed unit, in which suspending is one blocking call: definitions, and their laws.
#![tactic(auto)]

pub mod laws;
