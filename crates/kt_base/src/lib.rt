//! The plain data that all crates of `ktrun` share, and the definitions of what a run means.
//!
//! The types say what a source text, a coroutine and a run consist of. The folder `specs/` defines, once for the
//! source language and for the machine, which answer an event gets, what the world of a list of scheduling choices
//! is, and which text, report and status such a world has.
#![tactic(auto)]

pub mod bounds;
pub mod errors;
pub mod events;
pub mod laws;
pub mod lumps;
pub mod names;
pub mod refusals;
pub mod stack_code;
pub mod texts;

pub use bounds::Limits;
pub use errors::NoMemory;
pub use events::{Answer, End, Event, Fate, Halt, Start};
pub use lumps::{Lump, Node};
pub use names::Name;
pub use refusals::{FrontErr, Kind, Pos, Refusal};
pub use stack_code::Plain;
pub use texts::Text16;
