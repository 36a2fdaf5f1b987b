//! The forms in which a stack map frame is written (JVMS SE 8 §4.7.4): their tags, and the first that fits a frame.
#![tactic(auto)]

pub mod forms;
pub mod kinds;
pub mod types;

pub use forms::Form;
pub use kinds::Kind;
