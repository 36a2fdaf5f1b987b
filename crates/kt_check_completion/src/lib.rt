//! What completes, and which jumps leave a loop: both by the typed tree. No memory is taken.
#![tactic(auto)]

pub mod completing;
pub mod entries;
pub mod jumps;
