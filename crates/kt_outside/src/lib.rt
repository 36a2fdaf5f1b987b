//! The outside of the program: files that are read and put, and streams that take bytes.
//!
//! All of the program is generic over two traits. Their clauses count faults, so that code which gives up can't claim
//! a fault: only the outside itself raises a count. In memory the outside also tells what it holds.
#![tactic(auto)]

pub mod memory;
pub mod outside;
pub mod real;
pub mod writing;

pub use memory::{MemFiles, MemSink};
pub use outside::{Failed, FileErr, Files, Sink};
pub use real::{RealFiles, RealSink};
pub use writing::write_all;
