//! Whether rows that lead to one another lead back to themselves: classes to their supertypes, type parameters to
//! their bounds.
#![tactic(auto)]

pub mod cycles;
pub mod links;
pub mod search;
