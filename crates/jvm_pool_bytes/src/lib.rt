//! The constant pool of a class file in bytes, both ways (JVMS SE 8 §4.1, §4.4).
#![tactic(auto)]

pub mod laws;
pub mod lookups;
pub mod raws;
pub mod reading;
pub mod tags;
pub mod writing;

pub use writing::put_pool;
