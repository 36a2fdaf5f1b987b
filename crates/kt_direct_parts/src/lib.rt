//! What code does with values where no class decides and no code runs: texts, properties that every file has, new
//! throwables, conversions, casts.
#![tactic(auto)]

pub mod casts;
pub mod conversions;
pub mod properties;
pub mod texts;
pub mod throwables;

pub use casts::cast_to;
pub use conversions::converted;
pub use properties::{code_of, entry_name_of, length_of, ordinal_of, size_of};
pub use texts::{basic_text, joined, printed};
pub use throwables::{built_throwable, message_of};
