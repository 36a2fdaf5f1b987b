//! The methods of `java/lang/String` and of `kt/rt/Text`.
#![tactic(auto)]

pub mod forms;
pub mod joins;
pub mod parts;
pub mod strings;

pub use forms::{text_of_boolean, text_of_character, text_of_int, text_of_long};
pub use joins::text_concat;
pub use parts::{string_char_at, string_substring};
pub use strings::{string_equals, string_length, string_to_string};
