//! Whether a class has a class file (JVMS SE 8 chapter 4).
#![tactic(auto)]

mod bodies;
mod code;
mod layout;
mod methods;
mod whole;

pub use whole::well_formed;
