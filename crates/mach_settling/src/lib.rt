//! Objects that came in a lump, made into objects of their classes.
#![tactic(auto)]

pub mod fields;
pub mod objects;
pub mod shapes;

pub use objects::settle;
pub use shapes::Shape;
