//! A class from the bytes of its class file (JVMS SE 8 chapter 4).
#![tactic(auto)]

mod bodies;
mod class;
mod files;
mod heads;
mod lengths;
mod methods;
mod tables;

pub use files::read;
