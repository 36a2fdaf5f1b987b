//! When the headers of a file are well formed, and at which declaration they fail.
#![tactic(auto)]

pub mod laws;
