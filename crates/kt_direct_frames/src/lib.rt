//! The frames of a machine that runs the direct meaning, and what a stack of them means. Code that awaits a part stands
//! on the stack, so calls go as deep as memory allows.
#![tactic(auto)]

pub mod assignments;
pub mod calls;
pub mod choices;
pub mod frames;
pub mod loops;
pub mod operands;
pub mod parts;
pub mod texts;

pub use assignments::{AfterStatement, Assigning, DirectPlace};
pub use calls::{AfterArgument, CallKind, CalledOn, DirectCalled};
pub use choices::{AfterChoice, Kept, WhenRest};
pub use frames::{Awaiting, Frame, Level, Next};
pub use loops::{AfterTest, Range, Turn};
pub use operands::AfterOperand;
pub use parts::Part;
pub use texts::{AfterComparison, AfterText};
