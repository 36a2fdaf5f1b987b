//! What values are, the heap, and how code runs: the same for the source language and for each form that it is
//! compiled to. It is definitions, and the arithmetic in code.
#![tactic(auto)]

pub mod laws;
pub mod numbers;
