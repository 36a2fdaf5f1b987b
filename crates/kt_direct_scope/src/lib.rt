//! What a body sees while it runs: its variables and captures, and how they are read, written, declared and captured.
#![tactic(auto)]

pub mod captures;
pub mod here;
pub mod variables;

pub use captures::{lambda_receiver, lambda_value};
pub use here::{Here, variables_of};
pub use variables::{declared, read_captured, read_local, write_captured, write_local};
