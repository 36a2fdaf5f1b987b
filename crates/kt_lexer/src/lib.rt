//! The lexer: the tokens of a text.
#![tactic(auto)]

mod brackets;
mod characters;
mod comments;
mod kinds;
mod laws;
mod lexing;
mod literals;
mod numbers;
mod scanning;
mod shapes;
mod signs;
mod sources;
mod words;

pub use laws::{not_both, one_refusal, one_tokens, source_tokens_or_refused, tokens_or_refused};
pub use lexing::lex;
pub use sources::lex_bytes;
