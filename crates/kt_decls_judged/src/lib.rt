//! The first header of a file that isn't well formed.
#![tactic(auto)]

pub mod judging;

pub use judging::judge_headers;
