//! A class to the bytes of its class file (JVMS SE 8 chapter 4).
#![tactic(auto)]

mod attributes;
mod bodies;
mod class;
mod files;
mod methods;

pub use files::write;
