//! What runs next.

use crate::calls::DirectCalled;
use crate::choices::WhenRest;
use kt_direct_values::DirectValue;
use kt_typed::{TypedBlock, TypedCatch, TypedExpression, TypedOperator, TypedStatement};

/// A piece of code with values, which has a value of its own.
#[derive(Drop)]
pub enum Part<'a> {
    Expression(&'a TypedExpression),
    Block(&'a TypedBlock),
    /// Statements, whose value is `Unit`.
    Statements(&'a [TypedStatement]),
    /// A statement, whose value is `Unit`.
    Statement(&'a TypedStatement),
    /// The block of a `try` with its catches.
    Try(&'a TypedBlock, &'a [TypedCatch]),
    /// What is left of a `when`.
    Conditions(WhenRest<'a>),
    /// A body with its arguments.
    Call(DirectCalled, Vec<DirectValue>),
    /// The text of a value.
    Text(DirectValue),
    /// Whether two values are equal; whether one of the operands is the literal `null`.
    Comparison(bool, DirectValue, DirectValue),
    /// An operator on two values.
    Operation(TypedOperator, DirectValue, DirectValue),
}
