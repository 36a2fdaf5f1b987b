//! The headers of the members of classes and interfaces.
#![tactic(auto)]

pub mod functions;
pub mod judging;
pub mod properties;
pub mod taking;

pub use judging::{judge_class_members, judge_interface_functions};
pub use properties::are_new_parameters;
