//! What linking makes of classes: each mention of a class, a field or a method is a number.
#![tactic(auto)]

pub mod classes;
pub mod code;
pub mod constants;
pub mod kinds;
pub mod methods;

pub use classes::{Face, Linked, LinkedClass, LinkedField};
pub use code::{LinkedCode, LinkedFrame, LinkedHandler};
pub use constants::{Constant, FieldMention, MethodMention};
pub use kinds::{Kind, ValueKind};
pub use methods::{LinkedMethod, MethodPlace, Role, Selector};
