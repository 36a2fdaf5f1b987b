//! What the entries of a constant pool stand for.

use crate::kinds::ValueKind;
use kt_base::Text16;

/// A field that an entry names.
#[derive(Clone, Copy)]
pub struct FieldMention {
    /// The class that the entry names.
    pub named: usize,
    /// The class that declares the field: the named one, or one above it.
    pub owner: usize,
    /// The place of the field in an object.
    pub slot: usize,
    pub kind: ValueKind,
    pub is_final: bool,
}

/// A method that an entry names.
#[derive(Clone, Copy)]
pub struct MethodMention {
    /// The class that the entry names.
    pub named: usize,
    /// The class that declares the method: the named one, or one above it.
    pub owner: usize,
    /// The place of the method among those of the class that declares it.
    pub place: usize,
}

/// What an entry stands for (JVMS SE 8 §4.4, §5.4.3).
#[derive(Drop)]
pub enum Constant {
    /// No entry starts at the index, or one that no instruction mentions.
    Nothing,
    Int(i32),
    Long(i64),
    Text(Text16),
    Class(usize),
    Field(FieldMention),
    Method(MethodMention),
    /// A method that the entry names as one of an interface.
    InterfaceMethod(MethodMention),
}
