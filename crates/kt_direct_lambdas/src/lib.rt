//! Which locals of a body its lambdas capture as `var`s.
#![tactic(auto)]

mod taking;

pub use taking::is_shared;
