//! Which rows of a graph have no row that leads back to itself at or above them.
#![tactic(auto)]

pub mod grounding;

pub use grounding::grounded_rows;
