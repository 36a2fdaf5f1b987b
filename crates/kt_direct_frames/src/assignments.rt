//! What is done with values in statements, and what is assigned to.

use kt_direct_values::DirectValue;
use kt_tree::StepOperator;
use kt_typed::{
    ClassParameter, TypedExpression, TypedOperator, TypedProperty, TypedStatement, Width,
};
use sqlite_items::Boxed;

/// What is assigned to, with its receiver and its index evaluated.
#[derive(Drop)]
pub enum DirectPlace {
    Local(u32),
    Captured(u32),
    Property(TypedProperty, DirectValue),
    /// An array, and the index.
    Element(DirectValue, DirectValue),
}

/// What is done with a place.
#[derive(Drop)]
pub enum Assigning<'a> {
    /// It gets the value of an expression.
    To(&'a TypedExpression),
    /// It gets what an operator makes of its value and of that of an expression.
    With(TypedOperator, &'a TypedExpression),
    /// `++` and `--`
    Step(StepOperator, Width),
}

/// What awaits a value in a statement.
#[derive(Drop)]
pub enum AfterStatement<'a> {
    /// The statement's own end; these stand behind it.
    Rest(&'a [TypedStatement]),
    /// The end of a block's statements; the block has this value.
    BlockValue(&'a Option<Boxed<TypedExpression>>),
    /// The value isn't used.
    Discard,
    /// The local is declared.
    Declare(u32),
    /// A property of the object that is being built gets its first value.
    Initialize(u32),
    /// The object of a property that is assigned to.
    TargetObject(TypedProperty, Assigning<'a>),
    /// The array that is assigned to, and the index.
    TargetArray(&'a TypedExpression, Assigning<'a>),
    /// The index of the array.
    TargetIndex(DirectValue, Assigning<'a>),
    /// The new value of a place.
    Write(DirectPlace),
    /// The value that an operator takes with the old one of a place.
    Update(DirectPlace, TypedOperator, DirectValue),
    /// The constructor of the superclass has ended: the parameters of the constructor and the arguments, which are
    /// stored, and the other statements.
    Store(&'a [ClassParameter], Vec<DirectValue>, &'a [TypedStatement]),
}
