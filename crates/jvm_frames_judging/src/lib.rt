//! Stack map frames judged by what they hold (JVMS SE 8 §4.7.4).
#![tactic(auto)]

pub mod forms;
pub mod frames;
pub mod starts;
pub mod types;
