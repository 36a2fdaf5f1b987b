//! The parser of declarations and files: recursive descent over the cursor of `kt_parser_steps`.
#![tactic(auto)]

mod classes;
mod constants;
mod files;
mod functions;
mod levels;
mod lists;
mod modifiers;
mod parameters;

pub use files::read_file;
