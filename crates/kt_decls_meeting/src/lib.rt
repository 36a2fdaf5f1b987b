//! The functions that meet in a class from above.
#![tactic(auto)]

pub mod agreeing;
pub mod keys;
pub mod meeting;

pub use keys::is_fine_from_above;
