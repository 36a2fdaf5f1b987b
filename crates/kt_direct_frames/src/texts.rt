//! What is done with texts, and with the outcome of comparisons.

use kt_base::Text16;
use kt_direct_values::DirectValue;
use kt_typed::{DeclaredProperty, TypedPart};

/// What awaits a text or a value of which a text is made.
#[derive(Drop)]
pub enum AfterText<'a> {
    /// The answer of a `toString` is to be a text.
    Answer,
    /// A value in a string, behind the text of the parts before, with the parts behind.
    Printed(Text16, &'a [TypedPart]),
    /// Its text.
    Part(Text16, &'a [TypedPart]),
    /// The text is printed.
    Print,
    /// The text of the left side of `+`, whose right side has this value.
    Left(DirectValue),
    /// The text of the right side, behind that of the left.
    Right(Text16),
    /// The text of a property of an object of a data class: the text of those before with its name, and from which slot
    /// on the other properties are.
    Property(DirectValue, Text16, usize, &'a [DeclaredProperty]),
}

/// What awaits whether two values are equal.
#[derive(Drop)]
pub enum AfterComparison<'a> {
    /// The answer of an `equals` is to be a truth value.
    Answer,
    /// `!=`
    Not,
    /// Two objects of a data class: from which slot on the other properties are.
    Properties(DirectValue, DirectValue, usize, &'a [DeclaredProperty]),
}
