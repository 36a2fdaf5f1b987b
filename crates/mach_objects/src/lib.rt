//! The methods of `java/lang/Object`, of throwables, `kt/rt/Unit`, `kt/rt/Entry` and `kt/rt/ContinuationImpl`.
#![tactic(auto)]

pub mod entries;
pub mod starting;
pub mod units;

pub use entries::{entry_equals, entry_to_string};
pub use starting::{
    continuation_init, entry_init, object_init, throwable_get_message, throwable_init_message,
};
pub use units::{no_method, unit_equals, unit_get, unit_to_string};
