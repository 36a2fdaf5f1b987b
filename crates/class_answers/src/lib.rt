//! What a tool over class files answers: a line for people, and a status for scripts.
#![tactic(auto)]

pub mod answers;
pub mod files;
pub mod telling;

pub use answers::Answer;
pub use files::read_file;
pub use telling::tell;
