//! What the entries of a constant pool stand for, and the kinds of declared values: each class, field and method by its
//! number.
#![tactic(auto)]

pub mod constants;
pub mod fields;
pub mod kinds;
pub mod signatures;

pub use constants::constants_of;
pub use kinds::{class_of, field_kind, value_kind};
pub use signatures::{Signature, signature_of};
