//! Assignments to locals, and steps on them.

ghost use Rattle.kt_check_deciding.specs.Outcomes.{Outcome, Reading, only_if, then_go};
ghost use Rattle.kt_check_deciding.specs.Statements as spec;
ghost use Rattle.kt_check_locals.specs.Views.{found_form, new_value_form};
ghost use Rattle.kt_check_names.specs.Answers.{Reads};
ghost use Rattle.kt_check_places.specs.Places.{state_at};
ghost use Rattle.kt_check_rules.specs.Assignments as rules;
ghost use Rattle.kt_check_rules.specs.Kinds.{width_of};
ghost use Rattle.kt_check_rules.specs.States.{assigned};
ghost use Rattle.kt_typed.specs.Bodies.{assign, expression_form, local_target, statement_form};
ghost use Rattle.kt_types_tree.specs.Types.{type_form};
ghost use Rattle.kt_flow.specs.Rows.{facts_form};
ghost use Rattle.std.specs.Prelude.{◌≡◌, ◌&&◌, IfOk, OnOk, not, nat_le};

use crate::lookups::{FoundLocal, local_of};
use crate::values::NewValue;
use kt_base::{Name, NoMemory, Pos};
use kt_check_names::{Known, Why};
use kt_check_operations::operations::width_of;
use kt_check_places::Place;
use kt_flow::Facts;
use kt_tree::{BinaryOperator, StepOperator};
use kt_typed::{
    LocalKind, Target, TypedExpression, TypedOperator, TypedStatement, TypedStatementKind, Width,
};
use sqlite_items::Boxed;
use std::alloc::Global;

/// Whether a `val` isn't assigned yet, and is declared in the innermost loop.
fn may_assign_value(outside: usize, facts: &Facts, number: u32) -> bool
    ensures { result ≡ (not ((facts_form facts.now).maybe_assigned number) && nat_le outside number) }
{
    if facts.is_maybe_assigned(number) {
        false
    } else {
        outside <= number as usize
    }
}

/// Whether a local may be assigned: a `var`, or a `val` that isn't assigned yet and is declared in the innermost loop.
fn may_assign(p: &Place, kind: LocalKind, number: u32, known: &Known) -> bool
    ensures { result ≡ rules.may_assign kind number (state_at p.now known.now) }
{
    match kind {
        LocalKind::Var => true,
        LocalKind::Val => may_assign_value(p.outside, &known.facts, number),
        LocalKind::Parameter => false,
        LocalKind::LoopVariable => false,
        LocalKind::CaughtException => false,
    }
}

/// Whether a local has the old value that an operator needs.
pub fn has_old(p: &Place, operator: Option<BinaryOperator>, number: u32, known: &Known) -> bool
    ensures { result ≡ rules.has_old operator number (state_at p.now known.now) }
{
    match operator {
        Some(_) => known.facts.is_surely_assigned(number),
        None => true,
    }
}

/// Behind an assignment to a local.
#[tactic(auto, using(crate::proofs::Locals::assigned_is))]
fn assign_facts(p: &Place, number: u32, known: &mut Known) -> Result<(), NoMemory>
    ensures { OnOk result (state_at p.now known.new ≡ assigned number (state_at p.now known.old)) }
{
    known.facts.assign(number)?;
    Ok(())
}

fn assignment(
    alloc: Global,
    at: Pos,
    number: u32,
    operator: Option<TypedOperator>,
    value: TypedExpression,
) -> Result<TypedStatement, NoMemory>
    ensures { IfOk result (λ y. statement_form y ≡
        assign at (local_target number) operator (expression_form value)) }
{
    let value = Boxed::new(alloc, value)?;
    Ok(TypedStatement {
        at,
        kind: TypedStatementKind::Assign(Target::ToLocal(number), operator, value),
    })
}

/// An assignment of a typed value.
fn assign_value(
    p: &Place,
    at: Pos,
    l: &FoundLocal,
    new: NewValue,
    known: &mut Known,
) -> Result<TypedStatement, Why>
    ensures { Reads statement_form result (state_at p.now known.new)
        (spec.assigned_to at (found_form l.now)
        (record { value = new_value_form new; behind = state_at p.now known.old })) }
{
    if may_assign(p, l.local.kind, l.number, known) {
        match assign_facts(p, l.number, known) {
            Ok(()) => Ok(assignment(p.alloc, at, l.number, new.operator, new.value)?),
            Err(_) => {
                drop(new);
                Err(Why::NoMemory)
            }
        }
    } else {
        drop(new);
        Err(Why::Refused)
    }
}

/// An assignment to a local. It is refused where the local may not be assigned behind the value.
#[tactic(auto, using(kt_check_places::proofs::Going::goes, kt_check_places::proofs::Going::fails))]
pub fn assign_local(
    p: &Place,
    at: Pos,
    l: &FoundLocal,
    new: Result<NewValue, Why>,
    known: &mut Known,
) -> Result<TypedStatement, Why>
    ensures { (o : Outcome (Reading spec.NewForm)) → Reads new_value_form new (state_at p.now known.old) o →
        Reads statement_form result (state_at p.now known.new)
        (then_go o (spec.assigned_to at (found_form l.now))) }
{
    match new {
        Ok(new) => assign_value(p, at, l, new, known),
        Err(why) => Err(why),
    }
}

/// A step on a local of a width.
fn step_of_width(
    p: &Place,
    at: Pos,
    operator: StepOperator,
    l: &FoundLocal,
    width: Option<Width>,
    known: &mut Known,
) -> Result<TypedStatement, Why>
    ensures { Reads statement_form result (state_at p.now known.new)
        (spec.stepped at operator (found_form l.now) width (state_at p.now known.old)) }
{
    match width {
        Some(width) => {
            if may_assign(p, l.local.kind, l.number, known) {
                assign_facts(p, l.number, known)?;
                Ok(TypedStatement {
                    at,
                    kind: TypedStatementKind::Step(Target::ToLocal(l.number), operator, width),
                })
            } else {
                Err(Why::Refused)
            }
        }
        None => Err(Why::Refused),
    }
}

/// A step on a local that was found.
fn step_found(
    p: &Place,
    at: Pos,
    operator: StepOperator,
    l: &FoundLocal,
    known: &mut Known,
) -> Result<TypedStatement, Why>
    ensures { Reads statement_form result (state_at p.now known.new)
        (only_if ((facts_form known.old.facts).surely_assigned l.now.number)
        (spec.stepped at operator (found_form l.now) (width_of (type_form l.now.local.declared))
        (state_at p.now known.old))) }
{
    if known.facts.is_surely_assigned(l.number) {
        step_of_width(p, at, operator, l, width_of(&l.local.declared), known)
    } else {
        Err(Why::Refused)
    }
}

/// `++` or `--` on a local.
#[tactic(auto, using(kt_check_places::proofs::Going::goes, crate::proofs::Locals::not_found))]
pub fn step_local(
    p: &Place,
    at: Pos,
    operator: StepOperator,
    name: &Name,
    known: &mut Known,
) -> Result<TypedStatement, Why>
    ensures { Reads statement_form result (state_at p.now known.new)
        (spec.local_steps at name.now operator (state_at p.now known.old)) }
{
    match local_of(p, known, name) {
        Ok(l) => step_found(p, at, operator, &l, known),
        Err(why) => Err(why),
    }
}
