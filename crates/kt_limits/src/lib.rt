//! The limits of the language on a typed unit, and the place at which one passes them.
#![tactic(auto)]

pub mod bodies;
pub mod checking;
pub mod headers;
pub mod laws;
pub mod limits;
pub mod notes;
pub mod noting;
pub mod so_far;
pub mod texts;

pub use checking::check_size;
