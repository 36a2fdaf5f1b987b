//! From the bytes of a source text, or from its tokens, to its tree.
#![tactic(auto)]

mod laws;
mod sources;
mod trees;

pub use laws::{one_source_refusal, one_source_tree, tree_excludes_refusal, tree_or_refusal};
pub use sources::read_source;
pub use trees::parse;
