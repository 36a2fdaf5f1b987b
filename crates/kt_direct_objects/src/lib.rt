//! Objects of classes: their properties, the bodies that calls on them find, and what a new one has in its slots.
#![tactic(auto)]

pub mod bodies;
pub mod properties;
pub mod slots;

pub use bodies::{body_for, declaration, is_data, own_body};
pub use properties::{read_property, write_property};
pub use slots::{blank_slots, data_properties, first_slot};
