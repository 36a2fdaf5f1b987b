//! Limits: which units are within them, and at which place the others are refused.
//!
//! Expected answers are worked out from the rules of the language.
#![tactic(auto)]

#[cfg(test)]
mod bodies;
#[cfg(test)]
mod limits;
#[cfg(test)]
mod units;
