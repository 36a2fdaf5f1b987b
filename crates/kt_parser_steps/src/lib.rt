//! The steps that a recursive descent is made of: a cursor, single tokens, what tokens stand for, looks ahead, loops and
//! lists. Each call of the cursor is one of the steps of `kt_grammar_parsers`.
#![tactic(auto)]

pub mod choices;
pub mod classes;
pub mod error;
pub mod lists;
pub mod loops;
pub mod meanings;
pub mod node;
pub mod owned;
pub mod refused;
pub mod steps;
pub mod takes;
pub mod tokens;

pub use choices::{
    attempt_if, class_ahead_if, class_if, keyword_if, part_if, sign_if, soft_keyword_if,
};
pub use classes::TokenClass;
pub use error::ParseError;
pub use lists::{Lead, comma_list, maybe_comma_list, separated, several};
pub use loops::{Turn, repeat};
pub use meanings::BinaryLevel;
pub use node::Node;
pub use owned::beside;
pub use refused::Refused;
pub use steps::{
    class_ahead, expect, expect_identifier, expect_keyword, expect_soft_keyword, meant, meant_text,
    name_of, sign_ahead,
};
pub use takes::{
    meant_if, take_assignment_operator, take_binary_operator, take_cast, take_literal, take_member,
    take_prefix_operator, take_range_operator, take_step_operator, take_type_check, take_variable,
};
pub use tokens::Tokens;
