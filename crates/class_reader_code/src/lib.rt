//! The code of a method, as it is read, with what its instructions mention.
#![tactic(auto)]

pub mod arrays;
pub mod mentions;

pub use arrays::code;
