//! What is looked up in a class while code runs: the fields of its objects, and the methods that calls find.
#![tactic(auto)]

pub mod faces;
pub mod fields;
pub mod headers;
pub mod methods;
pub mod selecting;
pub mod slots;
pub mod table;

pub use faces::faces_of;
pub use fields::object_fields;
pub use methods::linked_method;
pub use slots::{Slots, all_own_slots, slots_of};
pub use table::table_of;
