//! The frames by which code is verified (JVMS SE 8 §4.10.1.4): kinds, operands, local variables.
#![tactic(auto)]

pub mod bodies;
pub mod frames;
pub mod kinds;
pub mod locals;
pub mod operands;

pub use bodies::Body;
pub use frames::Frame;
pub use operands::Operands;
