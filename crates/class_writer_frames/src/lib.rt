//! Stack map frames, as they are written behind a whole pool.
#![tactic(auto)]

pub mod forms;
pub mod frames;
pub mod types;

pub use frames::put_frames;
