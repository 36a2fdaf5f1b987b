//! Comparisons.

ghost use Rattle.kt_direct_expressions.specs.Called.{called_or_unfit};
ghost use Rattle.kt_direct_frames.specs.Frames.{Leads};
ghost use Rattle.kt_direct_frames.specs.Results.{as_truth_value};
ghost use Rattle.kt_direct_frames.specs.Texts as spec;
ghost use Rattle.kt_direct_scope.specs.Activation.{here_form};
ghost use Rattle.kt_direct_values.specs.Agree.{AgreesValue};
ghost use Rattle.kt_direct_values.specs.Forms.{store_form, value_form};
ghost use Rattle.kt_meaning.specs.Activations.{Activation};
ghost use Rattle.kt_meaning.specs.Equality as equality;
ghost use Rattle.kt_typed.specs.Headers.{property_form};
ghost use Rattle.kt_typed.specs.Units.{unit_form};
ghost use Rattle.kt_values.specs.Runs.{Store, or_unfit};
ghost use Rattle.kt_values.specs.Values as v;
ghost use Rattle.kt_values.specs.Values.{Value};
ghost use Rattle.std.specs.Prelude.{◌≡◌, [], ◌∷◌, IfOk, map};

use crate::kinds::{Decider, decided_by, split};
use crate::texts::content_of;
use kt_direct_frames::{AfterComparison, Awaiting, DirectCalled, Frame, Next, Part};
use kt_direct_objects::{body_for, is_data, own_body};
use kt_direct_operators::{as_truth, equal_basic, is_null};
use kt_direct_scope::Here;
use kt_direct_values::store::put;
use kt_direct_values::{Abrupt, DirectShape, DirectStore, DirectValue, Stop};
use kt_typed::{DeclaredProperty, TypedUnit};
use std::alloc::{AllocError, Global};

/// The `equals` of an object of a class: that of its class, else the generated one of a data class, else that of a
/// superclass.
fn equals_called(unit: &TypedUnit, c: u32, x: DirectValue) -> Option<DirectCalled>
    ensures { (here : Activation) (y : Value) → here.unit ≡ unit_form unit.now →
        equality.equals_of here c (value_form x) y ≡ called_or_unfit here result (y ∷ []) }
{
    match own_body(unit, b"equals", 1, c) {
        Some(own) => Some(DirectCalled::Member(own.0, own.1, x)),
        None => {
            if is_data(unit, c) {
                return Some(DirectCalled::GeneratedEquals(c, x));
            }
            match body_for(unit, b"equals", 1, c) {
                Some(found) => Some(DirectCalled::Member(found.0, found.1, x)),
                None => None,
            }
        }
    }
}

/// One value as a list.
fn only(alloc: Global, x: DirectValue) -> Result<Vec<DirectValue>, AllocError>
    ensures { IfOk result (λ all. all.items ≡ x ∷ []) }
{
    let mut all = Vec::new(alloc);
    put(&mut all, x)?;
    Ok(all)
}

/// Whether an object of a class equals a value.
fn object_equals<'a>(
    alloc: Global,
    unit: &TypedUnit,
    c: u32,
    place: usize,
    y: DirectValue,
) -> Next<'a>
    ensures { (here : Activation) (s : Store) → here.unit ≡ unit_form unit.now → Leads here result s
        (as_truth_value (equality.equal here (v.reference (v.instance c) place) (value_form y)) s) }
{
    let x = DirectValue::Reference(DirectShape::Instance(c), place);
    match equals_called(unit, c, x) {
        Some(called) => match only(alloc, y) {
            Ok(arguments) => Next::First(
                Part::Call(called, arguments),
                Frame::Value(Awaiting::Comparison(AfterComparison::Answer)),
            ),
            Err(_) => Next::Ended(Err(Abrupt::NoMemory)),
        },
        None => Next::Ended(Err(Abrupt::Stopped(Stop::Unfit))),
    }
}

/// A truth value as a value, where it is there.
fn truth_or_unfit(found: Option<bool>) -> Result<DirectValue, Abrupt>
    ensures { (s : Store) → AgreesValue result s (as_truth_value (or_unfit found) s) }
{
    match found {
        Some(b) => Ok(DirectValue::Truth(b)),
        None => Err(Abrupt::Stopped(Stop::Unfit)),
    }
}

/// Whether a value equals another one.
fn equal<'a>(alloc: Global, unit: &TypedUnit, x: DirectValue, y: DirectValue) -> Next<'a>
    ensures { (here : Activation) (s : Store) → here.unit ≡ unit_form unit.now → Leads here result s
        (as_truth_value (equality.equal here (value_form x) (value_form y)) s) }
{
    match decided_by(&x) {
        Decider::Object(c, place) => object_equals(alloc, unit, c, place, y),
        Decider::Entry => Next::Ended(truth_or_unfit(equal_basic(&x, &y))),
        Decider::Basic => Next::Ended(truth_or_unfit(equal_basic(&x, &y))),
    }
}

/// Whether a value equals another one, where the first tells whether one of the operands is the literal `null`.
#[tactic(auto, unfolding(kt_direct_scope::specs::Activation::here_form))]
pub fn compare<'a>(
    alloc: Global,
    here: &Here<'a>,
    null: bool,
    x: DirectValue,
    y: DirectValue,
) -> Next<'a>
    ensures { let h = here_form here.now in (s : Store) → Leads h result s
        (as_truth_value (equality.compared h null (value_form x) (value_form y)) s) }
{
    if null {
        return Next::Ended(Ok(DirectValue::Truth(is_null(&x) && is_null(&y))));
    }
    equal(alloc, here.unit, x, y)
}

/// Whether two objects of a data class have equal properties, from a slot on.
pub fn same_properties<'a>(
    alloc: Global,
    x: DirectValue,
    y: DirectValue,
    slot: usize,
    properties: &'a [DeclaredProperty],
    store: &DirectStore<'_>,
) -> Next<'a>
    ensures { (here : Activation) → Leads here result (store_form store.now) (as_truth_value
        (equality.properties_equal here (value_form x) (value_form y) slot (map property_form properties.now))
        (store_form store.now)) }
{
    match split(properties) {
        Some(both) => same_property(alloc, x, y, slot, both.0, both.1, store),
        None => Next::Ended(Ok(DirectValue::Truth(true))),
    }
}

/// Whether two objects of a data class have equal properties in a slot and behind it.
#[tactic(auto, using(crate::proofs::DataClasses::same_property, crate::proofs::DataClasses::first_fails, crate::proofs::DataClasses::second_fails))]
fn same_property<'a>(
    alloc: Global,
    x: DirectValue,
    y: DirectValue,
    slot: usize,
    first: &DeclaredProperty,
    rest: &'a [DeclaredProperty],
    store: &DirectStore<'_>,
) -> Next<'a>
    ensures { (here : Activation) → Leads here result (store_form store.now) (as_truth_value
        (equality.properties_equal here (value_form x) (value_form y) slot (property_form first.now ∷ map property_form rest.now))
        (store_form store.now)) }
{
    match content_of(alloc, &x, slot, store) {
        Ok(a) => match content_of(alloc, &y, slot, store) {
            Ok(b) => match slot.checked_add(1) {
                Some(next) => Next::First(
                    Part::Comparison(false, a, b),
                    Frame::Value(Awaiting::Comparison(AfterComparison::Properties(
                        x, y, next, rest,
                    ))),
                ),
                None => Next::Ended(Err(Abrupt::NoMemory)),
            },
            Err(end) => Next::Ended(Err(end)),
        },
        Err(end) => Next::Ended(Err(end)),
    }
}

/// A comparison goes on behind the outcome of another one.
pub fn after_comparison<'a>(
    alloc: Global,
    after: AfterComparison<'a>,
    x: &DirectValue,
    store: &DirectStore<'_>,
) -> Next<'a>
    ensures { (here : Activation) → Leads here result (store_form store.now)
        (spec.after_comparison here after.entry (value_form x.now) (store_form store.now)) }
{
    match as_truth(x) {
        Some(b) => match after {
            AfterComparison::Answer => Next::Ended(Ok(DirectValue::Truth(b))),
            AfterComparison::Not => Next::Ended(Ok(DirectValue::Truth(!b))),
            AfterComparison::Properties(first, second, slot, properties) => {
                if b {
                    same_properties(alloc, first, second, slot, properties, store)
                } else {
                    Next::Ended(Ok(DirectValue::Truth(false)))
                }
            }
        },
        None => match after {
            AfterComparison::Answer => Next::Ended(Err(Abrupt::Stopped(Stop::Unfit))),
            AfterComparison::Not => Next::Ended(Err(Abrupt::Stopped(Stop::Unfit))),
            AfterComparison::Properties(_, _, _, _) => {
                Next::Ended(Err(Abrupt::Stopped(Stop::Unfit)))
            }
        },
    }
}
