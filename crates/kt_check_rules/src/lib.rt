//! The rules of typing: which typed tree a syntax tree has, and where one that has none is refused. Nothing is computed
//! here; the laws are functions that do nothing.
#![tactic(auto)]

pub mod laws;
