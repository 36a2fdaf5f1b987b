//! What is called, and what is done with receivers and arguments.

use kt_direct_values::DirectValue;
use kt_typed::{BuiltIn, BuiltInMethod, TypedExpression};
use sqlite_items::Items;

/// What is entered by a call, with the object or the captures that it belongs to.
#[derive(Drop)]
pub enum DirectCalled {
    Function(usize),
    /// The row of the class that has the body, the place of the function there, and the object.
    Member(u32, usize, DirectValue),
    /// The row of the class, and the object that is being built.
    Constructor(u32, DirectValue),
    /// The number of the lambda, and what it captured.
    Lambda(u32, Items<DirectValue>),
    /// The `equals` that a data class has without declaring it.
    GeneratedEquals(u32, DirectValue),
    /// The `toString` that a data class has without declaring it.
    GeneratedToString(u32, DirectValue),
}

/// What is called on a receiver.
#[derive(Drop)]
pub enum CalledOn {
    /// A function of a class, by the row that declares it and its place there.
    Method(u32, u32),
    BuiltInMethod(BuiltInMethod),
    /// The receiver is a function, and is called itself.
    Value,
}

/// What is done with arguments.
#[derive(Drop)]
pub enum CallKind {
    Function(u32),
    Constructor(u32),
    BuiltIn(BuiltIn),
    /// With the receiver.
    On(CalledOn, DirectValue),
    /// The constructor of the superclass runs on the object that is being built.
    Superclass,
}

/// What awaits a receiver, an argument or the end of a call.
#[derive(Drop)]
pub enum AfterArgument<'a> {
    /// The receiver, behind `?.` where the first is true.
    Receiver(bool, CalledOn, &'a [TypedExpression]),
    /// An argument: the values of those before, and the arguments behind.
    Argument(Vec<DirectValue>, &'a [TypedExpression], CallKind),
    /// The end of a constructor; the new object.
    Built(DirectValue),
    /// The end of the block of `suspendCoroutine`; the number of the cell.
    Await(u32),
}
