//! Elements of arrays, and units of strings. A bad index throws.

ghost use Rattle.kt_direct_values.specs.Agree.{Agrees, AgreesDone, AgreesSame, AgreesValue};
ghost use Rattle.kt_direct_values.specs.Forms.{store_form, value_form};
ghost use Rattle.kt_meaning.specs.Access as spec;
ghost use Rattle.kt_values.specs.Runs.{or_unfit, then_do};
ghost use Rattle.kt_values.specs.Values as v;
ghost use Rattle.std.specs.Prelude.{option_map};

use crate::indices::{index_in, unit_at, value_at};
use kt_base::Text16;
use kt_direct_operators::as_int;
use kt_direct_values::{Abrupt, DirectShape, DirectStore, DirectValue, Fault, Stop};
use std::alloc::Global;

/// What stands in the slot of an index, where there is one.
fn slot_in_range(
    alloc: Global,
    x: &DirectValue,
    i: i32,
    store: &DirectStore<'_>,
) -> Result<Option<DirectValue>, Abrupt>
    ensures { Agrees (option_map value_form) result (store_form store.now)
        (spec.slot_in_range (value_form x.now) i (store_form store.now)) }
{
    match store.object_of(x) {
        Some(object) => match value_at(object.slots.as_slice(), i) {
            Some(found) => Ok(Some(found.copy(alloc)?)),
            None => Ok(None),
        },
        None => Err(Abrupt::Stopped(Stop::Unfit)),
    }
}

/// What stands at an index of an array.
#[tactic(auto, using(kt_direct_values::proofs::Passing::raised))]
fn slot_at(
    alloc: Global,
    x: &DirectValue,
    i: i32,
    store: &mut DirectStore<'_>,
) -> Result<DirectValue, Abrupt>
    ensures { AgreesValue result (store_form store.new) (spec.slot_at (value_form x.now) i (store_form store.old)) }
{
    match slot_in_range(alloc, x, i, &*store)? {
        Some(found) => Ok(found),
        None => Err(store.raise(alloc, Fault::ArrayIndex(i))),
    }
}

/// The unit at an index of a string.
#[tactic(auto, using(kt_direct_values::proofs::Passing::raised))]
fn character_at(
    alloc: Global,
    t: &Text16,
    i: i32,
    store: &mut DirectStore<'_>,
) -> Result<DirectValue, Abrupt>
    ensures { AgreesValue result (store_form store.new) (spec.unit_at t.now i (store_form store.old)) }
{
    match unit_at(t.units(), i) {
        Some(unit) => Ok(DirectValue::Character(unit)),
        None => Err(store.raise(alloc, Fault::TextIndex(i))),
    }
}

/// An element of an array, or a unit of a string, by its index.
fn element_at(
    alloc: Global,
    x: &DirectValue,
    i: i32,
    store: &mut DirectStore<'_>,
) -> Result<DirectValue, Abrupt>
    ensures { AgreesValue result (store_form store.new) (spec.element_at (value_form x.now) i (store_form store.old)) }
{
    match x {
        DirectValue::Text(t) => character_at(alloc, t, i, store),
        DirectValue::Reference(shape, _) => match shape {
            DirectShape::Numbers => slot_at(alloc, x, i, store),
            DirectShape::Elements => slot_at(alloc, x, i, store),
            DirectShape::Instance(_) | DirectShape::Variable => Err(Abrupt::Stopped(Stop::Unfit)),
        },
        DirectValue::Int(_)
        | DirectValue::Long(_)
        | DirectValue::Truth(_)
        | DirectValue::Character(_)
        | DirectValue::Null
        | DirectValue::Unit
        | DirectValue::Entry(_, _)
        | DirectValue::Cell(_)
        | DirectValue::Closure(_, _) => Err(Abrupt::Stopped(Stop::Unfit)),
    }
}

/// `x[y]`.
pub fn element(
    alloc: Global,
    x: &DirectValue,
    y: &DirectValue,
    store: &mut DirectStore<'_>,
) -> Result<DirectValue, Abrupt>
    ensures { AgreesValue result (store_form store.new)
        (spec.element (value_form x.now) (value_form y.now) (store_form store.old)) }
{
    match as_int(y) {
        Some(i) => element_at(alloc, x, i, store),
        None => Err(Abrupt::Stopped(Stop::Unfit)),
    }
}

/// The slot of an index, where there is one.
fn index_in_range(x: &DirectValue, i: i32, store: &DirectStore<'_>) -> Result<Option<usize>, Abrupt>
    ensures { AgreesSame result (store_form store.now)
        (spec.index_in_range (value_form x.now) i (store_form store.now)) }
{
    match store.object_of(x) {
        Some(object) => Ok(index_in(object.slots.as_slice(), i)),
        None => Err(Abrupt::Stopped(Stop::Unfit)),
    }
}

/// The element at an index of an array gets a value.
#[tactic(auto, using(kt_direct_values::proofs::Passing::raised))]
fn put_at(
    alloc: Global,
    x: &DirectValue,
    i: i32,
    new: DirectValue,
    store: &mut DirectStore<'_>,
) -> Result<(), Abrupt>
    ensures { AgreesDone result (store_form store.new)
        (spec.put_at (value_form x.now) i (value_form new) (store_form store.old)) }
{
    match index_in_range(x, i, &*store) {
        Ok(found) => match found {
            Some(slot) => store.write_slot(x, slot, new),
            None => Err(store.raise(alloc, Fault::ArrayIndex(i))),
        },
        Err(end) => Err(end),
    }
}

/// `x[y] = new`, where `x` is an array.
fn put_in_array(
    alloc: Global,
    x: &DirectValue,
    y: &DirectValue,
    new: DirectValue,
    store: &mut DirectStore<'_>,
) -> Result<(), Abrupt>
    ensures { AgreesDone result (store_form store.new)
        (then_do (or_unfit (v.as_int (value_form y.now)) (store_form store.old))
        (λ i. spec.put_at (value_form x.now) i (value_form new))) }
{
    match as_int(y) {
        Some(i) => put_at(alloc, x, i, new, store),
        None => Err(Abrupt::Stopped(Stop::Unfit)),
    }
}

/// `x[y] = new`.
pub fn put_element(
    alloc: Global,
    x: &DirectValue,
    y: &DirectValue,
    new: DirectValue,
    store: &mut DirectStore<'_>,
) -> Result<(), Abrupt>
    ensures { AgreesDone result (store_form store.new)
        (spec.put_element (value_form x.now) (value_form y.now) (value_form new) (store_form store.old)) }
{
    match x {
        DirectValue::Reference(shape, _) => match shape {
            DirectShape::Numbers => put_in_array(alloc, x, y, new, store),
            DirectShape::Elements => put_in_array(alloc, x, y, new, store),
            DirectShape::Instance(_) | DirectShape::Variable => Err(Abrupt::Stopped(Stop::Unfit)),
        },
        DirectValue::Int(_)
        | DirectValue::Long(_)
        | DirectValue::Truth(_)
        | DirectValue::Character(_)
        | DirectValue::Text(_)
        | DirectValue::Null
        | DirectValue::Unit
        | DirectValue::Entry(_, _)
        | DirectValue::Cell(_)
        | DirectValue::Closure(_, _) => Err(Abrupt::Stopped(Stop::Unfit)),
    }
}
