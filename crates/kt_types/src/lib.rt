//! Types of the language: subtyping, substitution, what a type allows, and what every program has built in.
#![tactic(auto)]

pub mod kinds;
pub mod substitution;
pub mod subtyping;
