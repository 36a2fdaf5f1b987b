//! What a class file holds, as data (JVMS SE 8 chapter 4), and the numbers of the format by their names.
#![tactic(auto)]

pub mod classes;
pub mod constants;
pub mod flags;
pub mod frames;

pub use classes::{ClassFile, Code, Field, Handler, Method};
pub use flags::{ClassFlags, FieldFlags, MethodFlags};
pub use frames::{Frame, FrameType};
