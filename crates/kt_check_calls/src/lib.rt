//! Calls of functions by their names, over their typed arguments.
#![tactic(auto)]

pub mod arguments;
pub mod built_ins;
pub mod functions;
pub mod named;
pub mod targets;
