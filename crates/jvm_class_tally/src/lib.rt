//! Parts of a class file judged by what they hold, without their bytes (JVMS SE 8 chapter 4).
#![tactic(auto)]

pub mod tally;

pub use tally::{Tally, outside};
