//! The parser of types: recursive descent over the cursor of `kt_grammar`.
#![tactic(auto)]

pub mod types;

pub use types::{annotation, named_type, read_type, type_list};
