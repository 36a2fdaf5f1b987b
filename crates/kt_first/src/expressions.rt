//! The code of expressions.

ghost use Rattle.kt_first.specs.Answers.{Answers, Pushes, with_step};
ghost use Rattle.kt_first.specs.Programs.{expression_code, step_of};
ghost use Rattle.kt_first.specs.Trees as trees;
ghost use Rattle.kt_tree.specs.Bodies.{expression_tree};
ghost use Rattle.std.specs.Prelude.{option_map};

use crate::reading::FirstErr;
use kt_base::Plain;
use kt_tree::{BinaryOperator, Expression, ExpressionKind, Literal, Number};

/// How many levels an expression that is printed has at most: its numbers, and 100 of operators and parentheses.
const MOST_LEVELS: u32 = 101;

/// Pushes the code of an expression that is printed.
pub(crate) fn push_operand(operand: &Expression, code: &mut Vec<Plain>) -> Result<(), FirstErr>
    ensures { Pushes result code.old.items code.new.items
        (option_map expression_code (trees.operand_of (expression_tree operand.now))) }
{
    if operand.levels() <= MOST_LEVELS {
        push_expression(operand, code)
    } else {
        Err(FirstErr::NotBuilt)
    }
}

/// Pushes the code of an expression: the operands first, then the operator.
#[cycle(expressions)]
#[tactic(auto, using(crate::proofs::Pushing::right_pushed))]
fn push_expression(expression: &Expression, code: &mut Vec<Plain>) -> Result<(), FirstErr>
    ensures { Pushes result code.old.items code.new.items
        (option_map expression_code (trees.expression_of (expression_tree expression.now))) }
{
    match &expression.kind {
        ExpressionKind::Literal(Literal::Number(number)) => push_number(*number, code),
        ExpressionKind::Parenthesized(inner) => push_expression(inner.get(), code),
        ExpressionKind::Binary(operator, left, right) => {
            let step = step_of(*operator)?;
            push_expression(left.get(), code)?;
            push_right(right.get(), step, code)
        }
        _ => Err(FirstErr::NotBuilt),
    }
}

/// Pushes the code of a right operand, and then the step of its operator.
#[cycle(expressions)]
#[tactic(auto, using(crate::proofs::Pushing::step_pushed))]
fn push_right(right: &Expression, step: Plain, code: &mut Vec<Plain>) -> Result<(), FirstErr>
    ensures { Pushes result code.old.items code.new.items
        (option_map (with_step step) (trees.expression_of (expression_tree right.now))) }
{
    push_expression(right, code)?;
    Ok(code.push(step)?)
}

/// Pushes a number.
fn push_number(number: Number, code: &mut Vec<Plain>) -> Result<(), FirstErr>
    ensures { Pushes result code.old.items code.new.items
        (option_map expression_code (trees.small_number number.value number.long)) }
{
    match number {
        Number {
            value: Some(value),
            long: false,
        } if value <= 2_147_483_647 => Ok(code.push(Plain::Push(value as i32))?),
        _ => Err(FirstErr::NotBuilt),
    }
}

/// The step of an operator.
fn step_of(operator: BinaryOperator) -> Result<Plain, FirstErr>
    ensures { Answers (λ step. step) result (option_map step_of (trees.operation_of operator)) }
{
    match operator {
        BinaryOperator::Plus => Ok(Plain::Add),
        BinaryOperator::Minus => Ok(Plain::Sub),
        BinaryOperator::Times => Ok(Plain::Mul),
        _ => Err(FirstErr::NotBuilt),
    }
}
