//! The parts of a class file, both ways: formats, and what is asked of them.
//!
//! A format says which values a part has, what spells a value, and what is read at the place of the part, with the
//! offset of the refusal where nothing is. A grammar is written once as a format, and gives the spelling, the reading
//! and the place of the refusal; the laws of its parts give its own.
#![tactic(auto)]

pub mod errors;
pub mod laws;
pub mod numbers;
pub mod places;

pub use errors::ReadErr;
pub use places::Place;
