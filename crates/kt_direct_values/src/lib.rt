//! Values and objects of a coroutine that runs by the direct meaning: data whose views are those of `kt_values`, with
//! copies, texts, and the store on which code runs.
#![tactic(auto)]

pub mod copies;
pub mod ends;
pub mod faults;
pub mod store;
pub mod texts;
pub mod values;

pub use ends::{Abrupt, Fault, Stop};
pub use store::DirectStore;
pub use values::{DirectObject, DirectShape, DirectValue};
