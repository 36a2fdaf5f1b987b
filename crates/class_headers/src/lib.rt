//! What linking knows of each class, by its names: those of the machine, the two of arrays, and those of class files.
#![tactic(auto)]

pub mod headers;
mod indexing;
pub mod making;
pub mod places;
pub mod table;

pub use headers::{FieldHeader, Header, MethodHeader};
pub use making::all_headers;
pub use table::ClassTable;
