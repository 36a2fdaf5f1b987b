//! What the headers of a unit tell running code: of its classes, its types and its constants.
#![tactic(auto)]

pub mod below;
pub mod constants;
pub mod supers;
pub mod types;

pub use below::{fits_catch, is_below};
pub use constants::{constant_value, put_units, token_text};
pub use supers::{entry_name, own_properties, superclass_of};
pub use types::{blank, is_of, is_tested};
