//! Places of a body, and what comes of typing there.
#![tactic(auto)]

pub mod places;
pub mod results;

pub use places::Place;
