//! What is known of the types of a file before its headers are judged.
#![tactic(auto)]

pub mod facts;
pub mod meanings;

pub use facts::{FileFacts, file_facts};
pub use meanings::{
    are_bounds_meant, are_constructor_parameters_meant, are_parameters_meant, are_parents_meant,
    are_types_meant, is_meant, is_meant_if,
};
