//! What has a name, found by it in logarithmic time: texts by their numbers, and members of classes by class, name and
//! descriptor.
#![tactic(auto)]

pub mod members;
pub mod texts;

pub use members::{MemberIndex, MemberKey};
pub use texts::TextIndex;
