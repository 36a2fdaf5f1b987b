//! Linking: a closed hierarchy of classes, each of their mentions resolved once (JVMS SE 8 §5.3, §5.4).
#![tactic(auto)]

pub mod all_classes;
pub mod classes;
pub mod errors;
pub mod laws;
pub mod linking;

pub use errors::LinkErr;
pub use linking::link;
