//! What is assigned.

ghost use Rattle.kt_check_deciding.specs.Outcomes.{Outcome, Reading, found, reading, then_go};
ghost use Rattle.kt_check_deciding.specs.Statements as spec;
ghost use Rattle.kt_check_locals.specs.Views.{new_value_form};
ghost use Rattle.kt_check_names.specs.Answers.{Reads};
ghost use Rattle.kt_check_rules.specs.Assignments as rules;
ghost use Rattle.kt_check_rules.specs.States.{State};
ghost use Rattle.kt_typed.specs.Bodies.{ExpressionForm, expression_form};
ghost use Rattle.std.specs.Prelude.{◌≡◌, None};

use kt_check_names::Why;
use kt_tree::{AssignmentOperator, BinaryOperator};
use kt_typed::{TypedExpression, TypedOperator};

/// What is assigned: a value, or with an operator the second operand of one that takes the old value.
#[derive(Drop)]
pub struct NewValue {
    pub operator: Option<TypedOperator>,
    pub value: TypedExpression,
}

/// The operator that an assignment applies to the old value.
pub fn applied_by(operator: AssignmentOperator) -> Option<BinaryOperator>
    ensures { result ≡ rules.applied_by operator }
{
    match operator {
        AssignmentOperator::Set => None,
        AssignmentOperator::Add => Some(BinaryOperator::Plus),
        AssignmentOperator::Subtract => Some(BinaryOperator::Minus),
        AssignmentOperator::Multiply => Some(BinaryOperator::Times),
        AssignmentOperator::Divide => Some(BinaryOperator::Divide),
        AssignmentOperator::Remainder => Some(BinaryOperator::Remainder),
    }
}

/// A value that is assigned as it is.
#[tactic(auto, using(kt_check_places::proofs::Going::goes, kt_check_places::proofs::Going::fails))]
pub fn plain_value(value: Result<TypedExpression, Why>) -> Result<NewValue, Why>
    ensures { (s : State) (o : Outcome (Reading ExpressionForm)) → Reads expression_form value s o →
        Reads new_value_form result s (then_go o (λ r. found (reading (spec.new_form None r.value) r.behind))) }
{
    match value {
        Ok(value) => Ok(NewValue {
            operator: None,
            value,
        }),
        Err(why) => Err(why),
    }
}
