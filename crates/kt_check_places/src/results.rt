//! What comes of an expression, for its use. A refusal, and want of memory, are passed on.

ghost use Rattle.kt_check_deciding.specs.Choosing as spec;
ghost use Rattle.kt_check_deciding.specs.Expressions as deciding;
ghost use Rattle.kt_check_deciding.specs.Outcomes.{Outcome, Reading, gives_if, gives_one, gives_some, then_go};
ghost use Rattle.kt_check_names.specs.Answers.{Reads};
ghost use Rattle.kt_check_names.specs.Views.{candidates_form, use_form};
ghost use Rattle.kt_check_places.specs.Places.{ClassesEndAt, context_at, state_at};
ghost use Rattle.kt_check_rules.specs.Choices.{first_some};
ghost use Rattle.kt_check_rules.specs.Kinds.{boolean_type, type_of};
ghost use Rattle.kt_check_rules.specs.Literals.{can_print};
ghost use Rattle.kt_check_rules.specs.Operators as operators;
ghost use Rattle.kt_check_rules.specs.States.{State};
ghost use Rattle.kt_check_rules.specs.Typings.{Use};
ghost use Rattle.kt_tree.specs.declared.bodies.PrefixOperator.TheVariants.{Not};
ghost use Rattle.kt_typed.specs.Bodies.{ExpressionForm, expression_form, prefix};
ghost use Rattle.kt_types_tree.specs.Types.{type_form};
ghost use Rattle.std.specs.Prelude.{◌≡◌, List, find};

use crate::places::Place;
use kt_base::Name;
use kt_check_expressions::choosing::{printed, taken};
use kt_check_expressions::operators::{negated, operated, prefix_of};
use kt_check_names::names::named;
use kt_check_names::{Candidates, Known, Purpose, Why};
use kt_tree::{BinaryOperator, PrefixOperator};
use kt_typed::TypedExpression;
use kt_types_tree::{KtType, TypeConstructor};
use std::alloc::Global;

/// The expression of the type that counts for its use.
#[tactic(auto, using(crate::proofs::Going::goes, crate::proofs::Going::fails))]
pub fn taken_of(
    p: &Place,
    purpose: Purpose,
    read: Result<Candidates, Why>,
) -> Result<TypedExpression, Why>
    requires classes { ClassesEndAt p.now }
    ensures { (s : State) (o : Outcome (Reading (List ExpressionForm))) → Reads candidates_form read s o →
        Reads expression_form result s
        (then_go o (λ r. gives_some (spec.taken (context_at p.now) (use_form purpose.entry) r.value) r.behind)) }
{
    match read {
        Ok(read) => taken(p.alloc, p.context, purpose, read),
        Err(why) => Err(why),
    }
}

/// The expression of the first type that can be printed.
#[tactic(auto, using(crate::proofs::Going::goes, crate::proofs::Going::fails))]
pub fn printed_of(p: &Place, read: Result<Candidates, Why>) -> Result<TypedExpression, Why>
    ensures { (s : State) (o : Outcome (Reading (List ExpressionForm))) → Reads candidates_form read s o →
        Reads expression_form result s
        (then_go o (λ r. gives_some (find (can_print (context_at p.now)) r.value) r.behind)) }
{
    match read {
        Ok(read) => printed(p.alloc, p.context, read),
        Err(why) => Err(why),
    }
}

/// The type of an expression.
#[tactic(auto, using(crate::proofs::Shown::type_is))]
pub fn type_shown(e: &TypedExpression) -> &KtType
    ensures { type_form result.now ≡ type_of (expression_form e.now) }
{
    &e.of_type
}

/// What a name of a value means.
#[tactic(auto, using(crate::proofs::Going::some_reads))]
pub fn names(p: &Place, known: &Known, name: &Name) -> Result<Candidates, Why>
    ensures { (w : Use) → Reads candidates_form result (state_at p.now known.now)
        (deciding.names (context_at p.now) name.now (state_at p.now known.now) w) }
{
    named(p.alloc, p.context, p.frames, known, name)
}

/// `-` before an operand.
#[tactic(auto, using(crate::proofs::Going::goes, crate::proofs::Going::fails))]
pub fn negations(alloc: Global, operand: Result<Candidates, Why>) -> Result<Candidates, Why>
    ensures { (s : State) (o : Outcome (Reading (List ExpressionForm))) → Reads candidates_form operand s o →
        Reads candidates_form result s
        (then_go o (λ r. gives_if (first_some operators.negated r.value) r.behind)) }
{
    match operand {
        Ok(operand) => negated(alloc, operand),
        Err(why) => Err(why),
    }
}

/// `!` before a truth value that was typed.
#[tactic(auto, using(crate::proofs::Going::reads_here))]
fn not_of(alloc: Global, operand: TypedExpression) -> Result<Candidates, Why>
    ensures { (s : State) → Reads candidates_form result s
        (gives_one (prefix boolean_type Not (expression_form operand)) s) }
{
    let t = KtType::plain(alloc, false, TypeConstructor::Boolean);
    prefix_of(alloc, PrefixOperator::Not, t, operand)
}

/// `!` before a truth value.
#[tactic(auto, using(crate::proofs::Going::goes, crate::proofs::Going::fails))]
pub fn nots(alloc: Global, operand: Result<TypedExpression, Why>) -> Result<Candidates, Why>
    ensures { (s : State) (o : Outcome (Reading ExpressionForm)) → Reads expression_form operand s o →
        Reads candidates_form result s
        (then_go o (λ r. gives_one (prefix boolean_type Not r.value) r.behind)) }
{
    match operand {
        Ok(operand) => not_of(alloc, operand),
        Err(why) => Err(why),
    }
}

/// An operator between two operands that are both evaluated, of which the left was typed.
#[tactic(auto, using(crate::proofs::Going::goes, crate::proofs::Going::fails))]
pub fn operations(
    p: &Place,
    operator: BinaryOperator,
    left: Candidates,
    right: Result<Candidates, Why>,
) -> Result<Candidates, Why>
    ensures { (s : State) (o : Outcome (Reading (List ExpressionForm))) → Reads candidates_form right s o →
        Reads candidates_form result s (then_go o (λ y. gives_if
        (deciding.operated (context_at p.now) operator (candidates_form left) y.value) y.behind)) }
{
    match right {
        Ok(right) => operated(p.alloc, p.context, operator, left, right),
        Err(why) => {
            drop(left);
            Err(why)
        }
    }
}
