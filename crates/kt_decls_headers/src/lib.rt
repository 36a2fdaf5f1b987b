//! The headers of a file whose headers are well formed.
#![tactic(auto)]

pub mod classes;
pub mod files;
pub mod functions;
pub mod members;
pub mod overridden;
pub mod parts;
pub mod throwables;

pub use files::headers;
