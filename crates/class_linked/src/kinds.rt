//! Kinds of values.

/// The kind of a field, a parameter or a result (JVMS SE 8 §4.3.2). A class is named by its number.
#[derive(Clone, Copy)]
pub enum ValueKind {
    Int,
    Long,
    Bool,
    Char,
    /// An object of a class or below it, or null.
    Object(usize),
}

/// What is known of a value while code is verified (JVMS SE 8 §4.10.1.2). A class is named by its number.
#[derive(Clone, Copy)]
pub enum Kind {
    /// No value that may be used.
    Top,
    /// An `int`; a boolean or a character counts as one.
    Int,
    Long,
    Null,
    /// An object of a class or below it, or null.
    Object(usize),
    /// The object that the *new* at this offset made, before its constructor returned.
    Fresh(u32),
    /// The receiver of a constructor, before the constructor above returned.
    FreshThis,
}
