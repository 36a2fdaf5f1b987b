//! Stack map frames as they are kept: expanded (JVMS SE 8 §4.7.4, §4.10.1.2).

use kt_base::Name;

/// The type of a local variable, or of an operand on the stack (§4.7.4). A `long` is one of these, though it takes two
/// units of the stack or of the local variables.
#[derive(Debug, Drop, PartialEq, Eq)]
pub enum FrameType {
    /// No value that may be used.
    Top,
    /// An `int`.
    Integer,
    /// A `long`.
    Long,
    /// Null.
    Null,
    /// `this`, before the constructor above was called.
    UninitializedThis,
    /// An object of the class of this name, or null.
    Object(Name),
    /// An object that the *new* at this offset of the code made, before its constructor was called.
    Uninitialized(u32),
}

/// The types at an offset of the code: those of the local variables, and those on the operand stack, the top last.
#[derive(Debug, Drop, PartialEq, Eq)]
pub struct Frame {
    /// The offset in the code.
    pub offset: u32,
    /// The types of the local variables, from the first.
    pub locals: Vec<FrameType>,
    /// The types on the operand stack, from the bottom.
    pub stack: Vec<FrameType>,
}
