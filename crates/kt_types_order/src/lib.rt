//! Subtyping as a relation, and its laws. Nothing is computed here.
#![tactic(auto)]

pub mod laws;
