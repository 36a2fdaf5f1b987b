//! The constant pool of a class file, read from its bytes (JVMS SE 8 §4.1, §4.4).
#![tactic(auto)]

pub mod entries;
pub mod kinds;
pub mod misfits;
pub mod raws;
mod reading;
pub mod stretches;
pub mod texts;

pub use reading::read_pool;
