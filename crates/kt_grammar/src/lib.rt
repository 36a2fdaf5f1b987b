//! The grammar of the language: which tokens spell which tree, a parser in the definitions, and the laws between
//! the two.
//!
//! The folder `specs/` says it all; `proofs/` shows that the parser reads exactly the grammar, and refuses the first
//! token with which nothing can go on.
#![tactic(auto)]

pub mod context;
pub mod laws;

pub use context::Context;
