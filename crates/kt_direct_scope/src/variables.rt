//! Locals and captures: a captured `var` is an object of one slot, which the variable refers to.

ghost use Rattle.kt_direct_scope.specs.Activation.{here_form};
ghost use Rattle.kt_direct_values.specs.Agree.{AgreesDone, AgreesValue};
ghost use Rattle.kt_direct_values.specs.Forms.{store_form, value_form};
ghost use Rattle.kt_meaning.specs.Variables as spec;
ghost use Rattle.kt_values.specs.Runs as runs;
ghost use Rattle.kt_values.specs.Values as v;
ghost use Rattle.kt_values.specs.Values.{Value};
ghost use Rattle.std.specs.Prelude.{◌≡◌, IfSome, None, ℕ};

use crate::here::Here;
use kt_direct_values::store::one_item;
use kt_direct_values::{Abrupt, DirectShape, DirectStore, DirectValue, Stop};
use std::alloc::Global;

/// The place of the object that a captured `var` is; none where the value is none.
fn variable_at(x: &DirectValue) -> Option<usize>
    ensures some { IfSome result (λ place. value_form x.now ≡ v.reference v.variable place) }
    ensures read { result ≡ None → spec.value_in (value_form x.now) ≡ runs.give (value_form x.now) }
    ensures written { result ≡ None → (n : ℕ) (new : Value) →
        spec.write_in n new (value_form x.now) ≡ spec.set_local_slot n new }
    ensures taken { result ≡ None → (new : Value) →
        spec.write_taken new (value_form x.now) ≡ runs.or_unfit None }
{
    match x {
        DirectValue::Reference(shape, place) => match shape {
            DirectShape::Variable => Some(*place),
            DirectShape::Instance(_) | DirectShape::Numbers | DirectShape::Elements => None,
        },
        DirectValue::Int(_)
        | DirectValue::Long(_)
        | DirectValue::Truth(_)
        | DirectValue::Character(_)
        | DirectValue::Text(_)
        | DirectValue::Null
        | DirectValue::Unit
        | DirectValue::Entry(_, _)
        | DirectValue::Cell(_)
        | DirectValue::Closure(_, _) => None,
    }
}

/// The value of a variable.
fn value_in(alloc: Global, x: &DirectValue, store: &DirectStore<'_>) -> Result<DirectValue, Abrupt>
    ensures { AgreesValue result (store_form store.now) (spec.value_in (value_form x.now) (store_form store.now)) }
{
    match variable_at(x) {
        Some(_) => Ok(store.read_slot(x, 0)?.copy(alloc)?),
        None => Ok(x.copy(alloc)?),
    }
}

/// The value of a local.
pub fn read_local(alloc: Global, n: u32, store: &DirectStore<'_>) -> Result<DirectValue, Abrupt>
    ensures { AgreesValue result (store_form store.now) (spec.read_local n (store_form store.now)) }
{
    let found = store.local_slot(n)?;
    value_in(alloc, found, store)
}

/// A local gets a value.
pub fn write_local(n: u32, new: DirectValue, store: &mut DirectStore<'_>) -> Result<(), Abrupt>
    ensures { AgreesDone result (store_form store.new) (spec.write_local n (value_form new) (store_form store.old)) }
{
    let found = store.local_slot(n)?;
    match variable_at(found) {
        Some(place) => store.write_slot(
            &DirectValue::Reference(DirectShape::Variable, place),
            0,
            new,
        ),
        None => {
            store.set_local_slot(n, new);
            Ok(())
        }
    }
}

/// The value of what a lambda captured, by its place among the captures.
#[tactic(auto, unfolding(crate::specs::Activation::here_form))]
pub fn read_captured(
    alloc: Global,
    here: &Here<'_>,
    n: u32,
    store: &DirectStore<'_>,
) -> Result<DirectValue, Abrupt>
    ensures { AgreesValue result (store_form store.now)
        (spec.read_captured (here_form here.now) n (store_form store.now)) }
{
    match here.captured(n) {
        Some(x) => value_in(alloc, x, store),
        None => Err(Abrupt::Stopped(Stop::Unfit)),
    }
}

/// A `var` that a lambda captured gets a value.
pub fn write_captured(
    here: &Here<'_>,
    n: u32,
    new: DirectValue,
    store: &mut DirectStore<'_>,
) -> Result<(), Abrupt>
    ensures { AgreesDone result (store_form store.new)
        (spec.write_captured (here_form here.now) n (value_form new) (store_form store.old)) }
{
    match here.captured(n) {
        Some(x) => match variable_at(x) {
            Some(_) => store.write_slot(x, 0, new),
            None => Err(Abrupt::Stopped(Stop::Unfit)),
        },
        None => Err(Abrupt::Stopped(Stop::Unfit)),
    }
}

/// A local is declared: where a lambda captures it as a `var`, its object is made.
pub fn declared(
    alloc: Global,
    here: &Here<'_>,
    n: u32,
    first: DirectValue,
    store: &mut DirectStore<'_>,
) -> Result<(), Abrupt>
    ensures { AgreesDone result (store_form store.new)
        (spec.declared (here_form here.now) n (value_form first) (store_form store.old)) }
{
    if here.is_shared(n) {
        let slots = one_item(alloc, first)?;
        let variable = store.make(DirectShape::Variable, slots)?;
        store.set_local_slot(n, variable);
        Ok(())
    } else {
        store.set_local_slot(n, first);
        Ok(())
    }
}
