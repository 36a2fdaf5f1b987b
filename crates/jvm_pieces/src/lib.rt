//! What stands behind the constant pool of a class file, piece by piece: bytes, and mentions of entries.
//!
//! Each mention is the index of its entry, so these bytes depend on the pool, and the pool on the order of the
//! mentions. Here the two are one definition, which has one spelling for each list of pieces.
#![tactic(auto)]

pub mod laws;
pub mod writing;

pub use writing::{put_bytes, put_mention};
