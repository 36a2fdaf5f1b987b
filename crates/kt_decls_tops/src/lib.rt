//! The headers of declarations at top level.
#![tactic(auto)]

pub mod classes;
pub mod constants;
pub mod declarations;
pub mod functions;
pub mod kinds;
pub mod meant;
pub mod names;
pub mod tops;

pub use tops::{is_fine_top, take_names};
