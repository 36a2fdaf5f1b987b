//! The walk from a class with its arguments up to what stands above it.
//!
//! No memory is taken: what is still ahead, what was met and the arguments of type parameters stand on the stack.
#![tactic(auto)]

pub mod climbing;
pub mod environment;
pub mod reading;
pub mod straight;
pub mod walk;
