//! The methods that the machine has without code: one call, and what each does, as one table.
#![tactic(auto)]

pub mod arguments;
pub mod asking;
pub mod boxes;
pub mod calling;
pub mod laws;
pub mod natives;
pub mod objects;
pub mod sending;
pub mod tables;
pub mod texts;

pub use calling::native;
pub use natives::{AskingNative, BoxNative, Native, ObjectNative, SendingNative, TextNative};
