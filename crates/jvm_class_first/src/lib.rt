//! Class files of programs that only print numbers.
#![tactic(auto)]

mod draft;
pub mod error;
mod finding;
mod heights;
mod instructions;
pub mod laws;
mod members;
mod names;
mod pool_bytes;
pub mod reading;
pub mod writing;

pub use error::PlainErr;
pub use reading::{is_plain_code, read_plain};
pub use writing::write_plain;
