//! What an expression has as a value, and the objects of a heap.

use kt_base::Text16;
use sqlite_items::Items;

/// What an object of the heap is.
#[derive(Clone, Copy, Debug, PartialEq, Eq)]
pub enum DirectShape {
    /// An object of a class of the file or a throwable, by its row.
    Instance(u32),
    /// An `IntArray`.
    Numbers,
    /// An `Array`.
    Elements,
    /// A `var` that a lambda captures.
    Variable,
}

/// A value.
#[derive(Drop)]
#[cycle(direct_value)]
pub enum DirectValue {
    Int(i32),
    Long(i64),
    Truth(bool),
    /// One UTF-16 code unit.
    Character(u16),
    Text(Text16),
    Null,
    /// The one value of `Unit`.
    Unit,
    /// An entry of an enum: the row of the enum, and the ordinal.
    Entry(u32, u32),
    /// A continuation, by the number of its cell.
    Cell(u32),
    /// A lambda, by its number, with what it captured.
    Closure(u32, Items<DirectValue>),
    /// An object of the heap, by what it is and its place there.
    Reference(DirectShape, usize),
}

/// An object of the heap.
#[derive(Drop)]
pub struct DirectObject {
    pub shape: DirectShape,
    pub slots: Items<DirectValue>,
}
