//! The grammar of a class file (JVMS SE 8 chapter 4): what stands behind the constant pool, and the whole file.
#![tactic(auto)]

pub mod kinds;
pub mod laws;

pub use kinds::EntryKind;
