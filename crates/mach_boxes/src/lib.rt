//! The methods of `java/lang/Integer`, `Long`, `Boolean` and `Character`.
#![tactic(auto)]

pub mod booleans;
pub mod characters;
pub mod integers;
pub mod longs;

pub use booleans::{boolean_equals, boolean_to_string, boolean_value, boolean_value_of};
pub use characters::{character_equals, character_to_string, character_value, character_value_of};
pub use integers::{integer_equals, integer_to_string, integer_value, integer_value_of};
pub use longs::{long_equals, long_to_string, long_value, long_value_of};
