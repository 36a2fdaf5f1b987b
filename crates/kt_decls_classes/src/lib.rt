//! The rules of classes, interfaces and enums that look at no function from above.
#![tactic(auto)]

pub mod cycles;
pub mod data;
pub mod entries;
pub mod kinds;
pub mod names;
pub mod supertypes;
