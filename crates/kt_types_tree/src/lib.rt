//! The types of a program with their names resolved, and the headers of classes as subtyping sees them.
//!
//! The folder `specs/` has their mirrors: plain data that definitions match on, with the views that show a type, a
//! header and a hierarchy as such.
#![tactic(auto)]

pub mod copying;
pub mod equality;
pub mod hierarchy;
pub mod making;
pub mod types;

pub use hierarchy::{ClassHeader, ClassKind, Hierarchy, Supertype};
pub use types::{KtType, TypeConstructor, TypeShape};
