//! What a type that is written in a file means.
#![tactic(auto)]

pub mod names;
pub mod references;
pub mod scopes;

pub use references::resolved;
pub use scopes::{ClassNames, NamedClass, Unresolved};
