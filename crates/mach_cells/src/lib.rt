//! The methods of `kt/rt/Cells`, `kt/rt/Out` and `kt/rt/Turn`: what a coroutine asks.
#![tactic(auto)]

pub mod answers;
pub mod asks;
pub mod awaiting;
pub mod sends;

pub use answers::drawn_cell;
pub use asks::{cells_make, out_println, tick};
pub use awaiting::{cells_await, cells_suspended};
pub use sends::{cells_fail, cells_launch, cells_resume};
