//! The hierarchy of all classes, and the members that a class has with those above it.
#![tactic(auto)]

pub mod hierarchy;
pub mod making;
pub mod members;

pub use hierarchy::Hierarchy;
pub use making::hierarchy_of;
pub use members::MemberKind;
