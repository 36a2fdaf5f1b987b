//! What classes name that isn't there (JVMS SE 8 §5.4.3).
#![tactic(auto)]

pub mod abstracts;
pub mod classes;
pub mod descriptors;
pub mod entries;
pub mod mentions;

pub use classes::first_missing;
