//! How much room a body needs: its weight.
#![tactic(auto)]

pub mod counting;
pub mod sizes;
pub mod weights;

pub use sizes::Sizes;
pub use weights::weight;
