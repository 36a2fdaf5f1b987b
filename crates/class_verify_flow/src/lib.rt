//! Where instructions lead as code is verified, and the first instruction of a method that isn't typed
//! (JVMS SE 8 §4.10.1.6).
#![tactic(auto)]

pub mod flow;
pub mod pass;
pub mod targets;

pub use pass::first_mistyped;
