//! What a class has from above: functions with their descriptors, and properties.
#![tactic(auto)]

pub mod above;
pub mod any;
pub mod choosing;
pub mod comparing;
pub mod erasing;
pub mod finding;
pub mod inheriting;
pub mod places;
pub mod properties;
pub mod property_names;
pub mod sights;

pub use above::descriptors_above;
pub use any::any_sights;
pub use comparing::is_same_descriptor;
pub use erasing::{Descriptor, ErasedType};
pub use inheriting::{all_sights, sights_above};
pub use places::row_places;
pub use properties::{is_inherited, is_one_inherited};
pub use sights::{FunctionTypes, Sight, function_types};
