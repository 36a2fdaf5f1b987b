//! Objects of a heap.

use crate::class_names::ClassName;
use crate::values::{Field, Value};
use kt_base::Text16;
use sqlite_items::Items;

/// How far an object of a class is.
#[derive(Clone, Copy, Debug, PartialEq, Eq)]
pub enum Phase {
    /// It is made, and no constructor of it has returned.
    Made,
    /// It is in use.
    Ready,
    /// It is a continuation that has given its outcome, and is resumed no more.
    Done,
}

/// An object of a class.
#[derive(Drop)]
pub struct Instance {
    pub class: ClassName,
    /// The number of the class among the linked ones. `None` for an object that came in a lump, until it is settled.
    pub number: Option<usize>,
    pub phase: Phase,
    /// Those of the class above first.
    pub fields: Items<Field>,
}

/// An object.
#[derive(Drop)]
pub enum Object {
    /// A string.
    Text(Text16),
    /// A boxed `int`.
    Int(i32),
    /// A boxed `long`.
    Long(i64),
    /// A boxed boolean.
    Bool(bool),
    /// A boxed character: a UTF-16 code unit.
    Char(u16),
    /// A suspension cell, by its number.
    Cell(u32),
    /// An array of `int`.
    Numbers(Items<i32>),
    /// An array of references.
    Elements(Items<Value>),
    /// A throwable: its message, which is null or a string, and what its class declares.
    Throwable(Value, Instance),
    /// An object of any other class.
    Instance(Instance),
}
