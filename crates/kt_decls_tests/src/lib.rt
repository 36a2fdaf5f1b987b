//! Headers of files of functions and constants: which are accepted, and at which declaration the others are refused.
//!
//! Expected answers are worked out from the rules of the language.
#![tactic(auto)]

#[cfg(test)]
mod headers;
#[cfg(test)]
mod trees;
