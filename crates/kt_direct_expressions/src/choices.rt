//! Branches of `if` and `when`.

ghost use Rattle.kt_direct_frames.specs.declared.choices.AfterChoice.TheVariants as after;
ghost use Rattle.kt_direct_frames.specs.Choices as spec;
ghost use Rattle.kt_direct_frames.specs.Frames.{Leads};
ghost use Rattle.kt_direct_scope.specs.Activation.{here_form};
ghost use Rattle.kt_direct_values.specs.Agree.{AgreesValue};
ghost use Rattle.kt_direct_values.specs.Forms.{value_form};
ghost use Rattle.kt_meaning.specs.Activations.{Activation};
ghost use Rattle.kt_meaning.specs.Conditionals as conditionals;
ghost use Rattle.kt_meaning.specs.Eval as eval;
ghost use Rattle.kt_typed.specs.Bodies as bodies;
ghost use Rattle.kt_typed.specs.Bodies.{block_form, condition_form, entry_form};
ghost use Rattle.kt_values.specs.Runs.{Store, then_do};
ghost use Rattle.kt_values.specs.Values as v;
ghost use Rattle.std.specs.Prelude.{map, option_map};

use crate::kinds::split;
use crate::operands::is_null_literal;
use kt_direct_classes::is_tested;
use kt_direct_frames::{AfterChoice, Awaiting, Frame, Kept, Next, Part, WhenRest};
use kt_direct_operators::as_truth;
use kt_direct_scope::Here;
use kt_direct_values::{Abrupt, DirectValue, Stop};
use kt_typed::{TypedBlock, TypedCondition, TypedEntry};
use std::alloc::Global;

/// A block, where there is one; else `Unit`.
fn maybe_block<'a>(b: &'a Option<TypedBlock>) -> Next<'a>
    ensures { (here : Activation) (s : Store) → Leads here result s
        (eval.value_of_maybe_block here (bodies.maybe_block (option_map block_form b.now)) s) }
{
    match b {
        Some(there) => Next::Part(Part::Block(there)),
        None => Next::Ended(Ok(DirectValue::Unit)),
    }
}

/// An `if` behind its condition.
fn after_condition<'a>(
    then: &'a TypedBlock,
    otherwise: &'a Option<TypedBlock>,
    x: &DirectValue,
) -> Next<'a>
    ensures { (here : Activation) (s : Store) → Leads here result s
        (conditionals.branch (eval.value_of_block here (block_form then.now))
        (eval.value_of_maybe_block here (bodies.maybe_block (option_map block_form otherwise.now)))
        (value_form x.now) s) }
{
    match as_truth(x) {
        Some(b) => {
            if b {
                Next::Part(Part::Block(then))
            } else {
                maybe_block(otherwise)
            }
        }
        None => Next::Ended(Err(Abrupt::Stopped(Stop::Unfit))),
    }
}

/// The entries of a `when` in order; one without conditions is `else`.
pub fn entries_of<'a>(entries: &'a [TypedEntry], subject: DirectValue) -> Next<'a>
    ensures { (here : Activation) (s : Store) → Leads here result s
        (eval.value_of_entries here (bodies.entries_of (map entry_form entries.now)) (value_form subject) s) }
{
    match entries {
        [] => Next::Ended(Ok(DirectValue::Unit)),
        [first, rest @ ..] => entry(first.conditions.as_slice(), &first.body, rest, subject),
    }
}

/// An entry of a `when`, and those behind it.
#[tactic(auto, using(crate::proofs::Conditions::any_first))]
fn entry<'a>(
    conditions: &'a [TypedCondition],
    body: &'a TypedBlock,
    rest: &'a [TypedEntry],
    subject: DirectValue,
) -> Next<'a>
    ensures { (here : Activation) (s : Store) → Leads here result s (eval.value_of_entry here
        (bodies.entry (bodies.conditions_of (map condition_form conditions.now)) (block_form body.now))
        (value_form subject)
        (eval.value_of_entries here (bodies.entries_of (map entry_form rest.now)) (value_form subject)) s) }
{
    match split(conditions) {
        None => Next::Part(Part::Block(body)),
        Some(_) => Next::Part(Part::Conditions(WhenRest {
            subject,
            conditions,
            body,
            entries: rest,
        })),
    }
}

/// Whether the condition before those that are left is met.
fn met<'a>(b: bool, w: WhenRest<'a>) -> Next<'a>
    ensures { (here : Activation) (s : Store) → Leads here result s (spec.first_met here w.entry (v.truth b) s) }
{
    if b {
        Next::Part(Part::Block(w.body))
    } else {
        Next::Part(Part::Conditions(w))
    }
}

/// A condition, and those behind it.
#[tactic(auto, using(kt_direct_frames::proofs::Binding::then_then), unfolding(kt_direct_scope::specs::Activation::here_form))]
fn condition<'a>(here: &Here<'a>, first: &'a TypedCondition, w: WhenRest<'a>) -> Next<'a>
    ensures { let h = here_form here.now in (s : Store) → Leads h result s
        (then_do (eval.is_met h (condition_form first.now) (value_form w.entry.subject) s) (spec.first_met h w.entry)) }
{
    match first {
        TypedCondition::Equals(value) => Next::First(
            Part::Expression(value.get()),
            Frame::Value(Awaiting::Choice(AfterChoice::Equals(is_null_literal(value.get()), w))),
        ),
        TypedCondition::Holds(value) => Next::First(
            Part::Expression(value.get()),
            Frame::Value(Awaiting::Choice(AfterChoice::Met(w))),
        ),
        TypedCondition::OfType(not, t) => met(is_tested(here.unit, *not, t, &w.subject), w),
    }
}

/// What is left of a `when`.
#[tactic(auto, using(crate::proofs::Conditions::when_leads))]
pub fn rest_of_when<'a>(here: &Here<'a>, w: WhenRest<'a>) -> Next<'a>
    ensures { let h = here_form here.now in (s : Store) → Leads h result s (spec.rest_of_when h w.entry s) }
{
    match split(w.conditions) {
        None => entries_of(w.entries, w.subject),
        Some(both) => condition(
            here,
            both.0,
            WhenRest {
                subject: w.subject,
                conditions: both.1,
                body: w.body,
                entries: w.entries,
            },
        ),
    }
}

/// The end of the code before a `finally`.
fn kept_end(kept: Kept) -> Result<DirectValue, Abrupt>
    ensures { (s : Store) → AgreesValue result s (spec.ended_so kept s) }
{
    match kept {
        Kept::Gave(x) => Ok(x),
        Kept::Thrown(x) => Err(Abrupt::Thrown(x)),
        Kept::Returned(x) => Err(Abrupt::Returned(x)),
        Kept::Broken => Err(Abrupt::Broken),
        Kept::Continued => Err(Abrupt::Continued),
    }
}

/// A value that the subject of a `when` is compared with.
fn compared<'a>(alloc: Global, null: bool, w: WhenRest<'a>, x: DirectValue) -> Next<'a>
    ensures { (here : Activation) (s : Store) → Leads here result s
        (spec.after_choice here (after.Equals null w.entry) (value_form x) s) }
{
    match w.subject.copy(alloc) {
        Ok(subject) => Next::First(
            Part::Comparison(null, subject, x),
            Frame::Value(Awaiting::Choice(AfterChoice::Met(w))),
        ),
        Err(_) => Next::Ended(Err(Abrupt::NoMemory)),
    }
}

/// A branch is chosen by a value.
pub fn after_choice<'a>(alloc: Global, after: AfterChoice<'a>, x: DirectValue) -> Next<'a>
    ensures { (here : Activation) (s : Store) → Leads here result s
        (spec.after_choice here after.entry (value_form x) s) }
{
    match after {
        AfterChoice::If(then, otherwise) => after_condition(then, otherwise, &x),
        AfterChoice::Subject(entries) => entries_of(entries, x),
        AfterChoice::Equals(null, w) => compared(alloc, null, w, x),
        AfterChoice::Met(w) => match as_truth(&x) {
            Some(b) => met(b, w),
            None => Next::Ended(Err(Abrupt::Stopped(Stop::Unfit))),
        },
        AfterChoice::Last(kept) => Next::Ended(kept_end(kept)),
    }
}
