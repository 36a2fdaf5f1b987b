//! The methods that the machine has without code: what each does, as one table.
#![tactic(auto)]

pub mod ends;
pub mod reading;
pub mod sending;
pub mod texts;
pub mod throwing;

pub use ends::NativeEnd;
pub use sending::Sending;
pub use throwing::{Fault, give_new, give_text, give_truth, make, throw};
