//! The turn rule: where code charges turns, so that it runs only so long on so many.
#![tactic(auto)]

pub mod paths;
pub mod ticks;
pub mod timing;

pub use timing::first_untimed;
