//! Which rows of a graph lead to which: of each row all that it reaches, and the first that reaches itself.
#![tactic(auto)]

pub mod cycles;
pub mod reach;

pub use cycles::first_on_cycle;
pub use reach::{all_supers, supers_of};
