//! Names where a body is being typed: what stays, what is known at a place, and what a name may mean.
#![tactic(auto)]

pub mod context;
pub mod facts;
pub mod known;
pub mod names;
pub mod purposes;
pub mod scopes;
pub mod why;

pub use context::BodyContext;
pub use known::Known;
pub use purposes::{Candidates, Purpose};
pub use scopes::{Frames, NamedLocal};
pub use why::Why;
