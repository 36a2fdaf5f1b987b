//! Parts of a class file behind its pool, as they are read: names, descriptors, flags, fields, exception tables.
#![tactic(auto)]

pub mod attributes;
pub mod fields;
pub mod flags;
pub mod handlers;
pub mod interfaces;
pub mod texts;
