//! What is done with the value of an operand.

use kt_direct_values::DirectValue;
use kt_tree::PrefixOperator;
use kt_typed::{TypedExpression, TypedOperator, TypedProperty};
use kt_types_tree::KtType;

/// What awaits the value of an operand.
#[derive(Drop)]
pub enum AfterOperand<'a> {
    /// `-` or `!`
    Prefix(PrefixOperator),
    /// An operator awaits its left operand: whether one of the operands is the literal `null`, and the right one.
    Left(TypedOperator, bool, &'a TypedExpression),
    /// An operator awaits its right operand: whether one of them is the literal `null`, and the value of the left one.
    Right(TypedOperator, bool, DirectValue),
    /// `is`, or `!is` where the first is true.
    Test(bool, &'a KtType),
    /// `as`, or `as?` where the first is true.
    Cast(bool, &'a KtType),
    /// `!!`
    NotNull,
    /// An array or a string is awaited, whose index is this.
    Index(&'a TypedExpression),
    /// The index is awaited.
    Element(DirectValue),
    /// The object of a property is awaited, behind `?.` where the first is true.
    Property(bool, TypedProperty),
    Throw,
    Return,
}
