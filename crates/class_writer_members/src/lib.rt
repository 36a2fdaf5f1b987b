//! Parts of a class file behind its pool, as they are written: numbers, mentions, fields, interfaces, exception tables.
#![tactic(auto)]

pub mod fields;
pub mod handlers;
pub mod interfaces;
pub mod items;
