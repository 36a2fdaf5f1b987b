//! Mentions of pool entries in what stands behind a pool, read in the order of first mention.
#![tactic(auto)]

pub mod counting;
pub mod mentions;

pub use counting::counted;
pub use mentions::{behind_mention, class_name};
