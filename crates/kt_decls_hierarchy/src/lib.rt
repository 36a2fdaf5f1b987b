//! The classes of a file by their names, and its hierarchy.
#![tactic(auto)]

pub mod classes;
pub mod drafts;
pub mod hierarchies;
pub mod marks;
pub mod supertypes;

pub use classes::class_names;
pub use hierarchies::hierarchy;
