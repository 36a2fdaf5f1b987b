//! Stack map frames (JVMS SE 8 §4.7.4), read and written: each against the one before, in the first form that fits.
#![tactic(auto)]

pub mod before;
pub mod errors;
pub mod expanding;
pub mod reading;
pub mod steps;
pub mod types;
pub mod writing;

pub use errors::FrameErr;
pub use expanding::expand;
pub use reading::{read_frame, read_frames};
pub use writing::put_frames;
