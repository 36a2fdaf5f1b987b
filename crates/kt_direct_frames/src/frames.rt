//! Frames, and what a step leads to.

use crate::assignments::AfterStatement;
use crate::calls::AfterArgument;
use crate::choices::AfterChoice;
use crate::loops::{AfterTest, Turn};
use crate::operands::AfterOperand;
use crate::parts::Part;
use crate::texts::{AfterComparison, AfterText};
use kt_direct_scope::Here;
use kt_direct_values::{Abrupt, DirectValue};
use kt_typed::{TypedBlock, TypedCatch};

/// What awaits a value. Any other end of the part is the end of the whole.
#[derive(Drop)]
pub enum Awaiting<'a> {
    Operand(AfterOperand<'a>),
    Text(AfterText<'a>),
    Comparison(AfterComparison<'a>),
    Choice(AfterChoice<'a>),
    Test(AfterTest<'a>),
    Statement(AfterStatement<'a>),
    Argument(AfterArgument<'a>),
}

/// What awaits the end of a part.
#[derive(Drop)]
pub enum Frame<'a> {
    Value(Awaiting<'a>),
    /// The block of a `try`, with its catches.
    Catches(&'a [TypedCatch]),
    /// The code before the block of a `finally`.
    Last(&'a TypedBlock),
    /// The body of a loop.
    Turn(Turn<'a>),
}

/// One level of the stack.
#[derive(Drop)]
pub enum Level<'a> {
    Frame(Frame<'a>),
    /// A body that was entered: what its caller sees, and the caller's variables.
    Return(Here<'a>, Vec<DirectValue>),
    /// A generated function of a data class, which has no variables: what its caller sees.
    Generated(Here<'a>),
}

/// What a step leads to.
#[derive(Drop)]
pub enum Next<'a> {
    /// What ran has ended so.
    Ended(Result<DirectValue, Abrupt>),
    /// This runs, and its end is that of the whole.
    Part(Part<'a>),
    /// This runs, and the frame awaits its end.
    First(Part<'a>, Frame<'a>),
}
