//! Whether type arguments are within the bounds of their parameters.
#![tactic(auto)]

pub mod bounds;

pub use bounds::{are_within_bounds, is_within_bounds};
