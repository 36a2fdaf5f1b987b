//! What is done with conditions and bounds of loops, and behind a turn of one.

use kt_direct_values::DirectValue;
use kt_tree::RangeOperator;
use kt_typed::{TypedBlock, TypedExpression};

/// What awaits a condition or a bound of a loop. The first of a condition is how many turns the loop may still make.
#[derive(Drop)]
pub enum AfterTest<'a> {
    While(u32, &'a TypedExpression, &'a TypedBlock),
    DoWhile(u32, &'a TypedBlock, &'a TypedExpression),
    /// The first number of a `for`: the loop variable, the operator, the bound and the body.
    First(u32, RangeOperator, &'a TypedExpression, &'a TypedBlock),
    /// The bound of a `for`: the loop variable, the operator, the first number and the body.
    Bound(u32, RangeOperator, DirectValue, &'a TypedBlock),
}

/// A loop whose body runs, and how many turns it may still make.
#[derive(Drop)]
pub enum Turn<'a> {
    While(u32, &'a TypedExpression, &'a TypedBlock),
    DoWhile(u32, &'a TypedBlock, &'a TypedExpression),
    /// Which one the loop variable is, and its number now with the last one.
    For(u32, u32, Range, &'a TypedBlock),
}

/// The number of a loop variable, and the last one.
#[derive(Clone, Copy, Debug, PartialEq, Eq)]
pub enum Range {
    Int(i32, i32),
    Long(i64, i64),
}
