//! What instructions need of the pool entries that they mention (JVMS SE 8 §6.5).
#![tactic(auto)]

pub mod needs;
