//! The steps of the machine of the direct meaning over operands, texts, comparisons and choices: what is done behind a
//! value leads to what its definition says.
#![tactic(auto)]

pub mod choices;
pub mod comparisons;
pub mod kinds;
pub mod operands;
pub mod texts;

pub use choices::{after_choice, entries_of, rest_of_when};
pub use comparisons::{after_comparison, compare, same_properties};
pub use operands::{
    after_operand, binary, is_null_literal, is_skipped, operand, operation, property,
};
pub use texts::{after_text, parts_of, properties_text, text_of};
