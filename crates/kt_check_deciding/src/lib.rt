//! The rules of typing, decided: what comes of a tree, as functions of it, and that this is what the rules say.
#![tactic(auto)]

pub mod laws;
