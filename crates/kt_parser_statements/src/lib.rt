//! The parser of expressions, statements and blocks: recursive descent over the cursor of `kt_grammar`.
#![tactic(auto)]

pub mod levels;
mod statements;

pub use kt_parser_blocks::Precedence;
pub use levels::{read_block, read_expression, read_statement, read_whole_expression};
