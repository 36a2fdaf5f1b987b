//! Code, its exception table and its frames.

use crate::kinds::Kind;
use jvm_code::Instr;
use sqlite_items::Items;

/// An entry of an exception table (JVMS SE 8 §4.7.3). Each offset is one in the code.
#[derive(Clone, Copy)]
pub struct LinkedHandler {
    /// Where the range begins that it covers.
    pub start: u16,
    /// Where that range has ended.
    pub end: u16,
    /// Where execution goes on.
    pub handler: u16,
    /// The class that it catches: `java/lang/Throwable` where the entry catches every throwable.
    pub catch: usize,
}

/// A frame (JVMS SE 8 §4.7.4).
#[derive(Drop)]
pub struct LinkedFrame {
    /// The offset in the code.
    pub offset: u32,
    /// The local variables, a kind for each unit: a `long` is followed by a `Top`.
    pub locals: Items<Kind>,
    /// The operands, the top first.
    pub stack: Items<Kind>,
}

/// The code of a method (JVMS SE 8 §4.7.3).
#[derive(Drop)]
pub struct LinkedCode {
    /// The greatest height of the operand stack, in units.
    pub max_stack: u16,
    /// How many units the local variables take.
    pub max_locals: u16,
    /// The instructions, each with its offset.
    pub instructions: Items<(u32, Instr)>,
    /// The exception table, in the order in which it is searched.
    pub handlers: Items<LinkedHandler>,
    /// The frames, in the order of their offsets.
    pub frames: Items<LinkedFrame>,
}
