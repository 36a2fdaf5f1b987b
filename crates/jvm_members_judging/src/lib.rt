//! Names, interfaces, fields and exception tables, judged by what they hold (JVMS SE 8 §4.1, §4.5, §4.7.3).
#![tactic(auto)]

pub mod fields;
pub mod handlers;
pub mod interfaces;
pub mod names;
