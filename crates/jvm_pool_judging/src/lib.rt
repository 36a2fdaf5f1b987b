//! A constant pool judged without memory: whether its entries keep their rules, and the counter of first mentions after a
//! mention (JVMS SE 8 §4.4).
#![tactic(auto)]

pub mod counting;
pub mod entries;
pub mod mentions;
pub mod sought;
pub mod texts;

pub use counting::counted;
pub use entries::are_entries;
pub use mentions::{class, text};
