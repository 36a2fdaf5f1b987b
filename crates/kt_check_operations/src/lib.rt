//! Operations by the types of their operands, and what types are without null. No memory is taken but for a copy of a type.
#![tactic(auto)]

pub mod nulls;
pub mod operations;
