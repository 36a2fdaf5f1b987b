//! What operators do with values: one function for each rule of the meaning, over the store on which code runs.
#![tactic(auto)]

pub mod equality;
pub mod kinds;
pub mod numbers;
pub mod operators;

pub use equality::equal_basic;
pub use kinds::{
    as_cell, as_character, as_int, as_number, as_text, as_truth, is_null, literal_value,
};
pub use operators::{arithmetic, asserted, bitwise, compared, prefixed, shifted, stepped};
