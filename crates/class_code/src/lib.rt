//! The code of methods, where each class that it names is a number.
#![tactic(auto)]

pub mod code;
pub mod frames;
pub mod handlers;

pub use code::linked_code;
