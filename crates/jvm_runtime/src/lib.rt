//! The classes that the machine has without a class file: their names, members and places in the hierarchy.
#![tactic(auto)]

pub mod classes;
pub mod laws;
pub mod members;

pub use classes::{RuntimeClass, runtime_classes};
pub use members::{RuntimeField, RuntimeMethod};
