//! One instruction as code is verified (JVMS SE 8 §4.10.1.9): whether its frame allows it, and the frame behind it.
#![tactic(auto)]

pub mod calls;
pub mod kinds;
pub mod mentions;
pub mod moves;
pub mod objects;
pub mod sorts;
pub mod steps;
pub mod values;

pub use steps::step;
