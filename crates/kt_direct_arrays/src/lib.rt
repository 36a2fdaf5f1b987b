//! Arrays and strings by their indices: elements, new arrays, parts of strings.
#![tactic(auto)]

pub mod elements;
pub mod indices;
pub mod making;
pub mod substrings;

pub use elements::{element, put_element};
pub use making::new_array;
pub use substrings::substring;
