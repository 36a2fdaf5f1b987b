//! What a method starts with: the types of its parameters, and the frame at its first instruction.
#![tactic(auto)]

pub mod arguments;
pub mod start;
pub mod types;

pub use arguments::{argument, argument_units, behind_open};
pub use start::start_types;
pub use types::ArgumentType;
