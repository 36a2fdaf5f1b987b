//! What every program has built in: types, throwables, functions, and members of built-in types.
//!
//! Each kind has an enum and one table, in which the definitions and the code have the same rows.
#![tactic(auto)]

pub mod functions;
pub mod members;
pub mod throwables;
pub mod types;

pub use functions::BuiltInFunction;
pub use members::{BuiltInMember, MemberRow, MemberType, Receiver};
pub use throwables::BuiltInThrowable;
pub use types::BuiltInType;
