//! Properties, read and assigned.

ghost use Rattle.kt_direct_values.specs.Agree.{AgreesDone, AgreesSame, AgreesValue};
ghost use Rattle.kt_direct_values.specs.Forms.{store_form, value_form};
ghost use Rattle.kt_meaning.specs.Access as spec;
ghost use Rattle.kt_meaning.specs.Classes as classes;
ghost use Rattle.kt_typed.specs.declared.operators.TypedProperty.TheVariants as property;
ghost use Rattle.kt_typed.specs.Units.{unit_form};
ghost use Rattle.kt_values.specs.Runs.{Store, or_unfit};
ghost use Rattle.std.specs.Prelude.{◌+◌, cond, Some, None};

use crate::slots::first_slot;
use kt_direct_classes::is_below;
use kt_direct_parts::{code_of, entry_name_of, length_of, ordinal_of, size_of};
use kt_direct_values::{Abrupt, DirectShape, DirectStore, DirectValue, Stop};
use kt_typed::{TypedProperty, TypedUnit};
use std::alloc::Global;

/// The slot of a property in an object of a class.
fn slot_of(unit: &TypedUnit, c: u32, place: u32, d: u32) -> Result<usize, Abrupt>
    ensures { (s : Store) → AgreesSame result s (or_unfit
        (cond (classes.is_below (unit_form unit.now) d c) (Some (classes.first_slot (unit_form unit.now) c + place)) None) s) }
{
    if !is_below(unit, d, c) {
        return Err(Abrupt::Stopped(Stop::Unfit));
    }
    let first = first_slot(unit, c)?;
    match first.checked_add(place as usize) {
        Some(slot) => Ok(slot),
        None => Err(Abrupt::NoMemory),
    }
}

/// The slot of a property, by the class that declares it and its place there, in an object.
fn slot_in(unit: &TypedUnit, c: u32, place: u32, x: &DirectValue) -> Result<usize, Abrupt>
    ensures { (s : Store) → AgreesSame result s
        (or_unfit (spec.slot_in (unit_form unit.now) c place (value_form x.now)) s) }
{
    match x {
        DirectValue::Reference(shape, _) => match shape {
            DirectShape::Instance(d) => slot_of(unit, c, place, *d),
            DirectShape::Numbers | DirectShape::Elements | DirectShape::Variable => {
                Err(Abrupt::Stopped(Stop::Unfit))
            }
        },
        DirectValue::Int(_)
        | DirectValue::Long(_)
        | DirectValue::Truth(_)
        | DirectValue::Character(_)
        | DirectValue::Text(_)
        | DirectValue::Null
        | DirectValue::Unit
        | DirectValue::Entry(_, _)
        | DirectValue::Cell(_)
        | DirectValue::Closure(_, _) => Err(Abrupt::Stopped(Stop::Unfit)),
    }
}

/// A property of an object, by the class that declares it and its place there.
fn read_declared(
    alloc: Global,
    unit: &TypedUnit,
    c: u32,
    place: u32,
    x: &DirectValue,
    store: &DirectStore<'_>,
) -> Result<DirectValue, Abrupt>
    ensures { AgreesValue result (store_form store.now) (spec.read_property (unit_form unit.now)
        (property.Declared c place) (value_form x.now) (store_form store.now)) }
{
    let slot = slot_in(unit, c, place, x)?;
    Ok(store.read_slot(x, slot)?.copy(alloc)?)
}

/// A property of a value.
pub fn read_property(
    alloc: Global,
    unit: &TypedUnit,
    p: TypedProperty,
    x: &DirectValue,
    store: &DirectStore<'_>,
) -> Result<DirectValue, Abrupt>
    ensures { AgreesValue result (store_form store.now)
        (spec.read_property (unit_form unit.now) p (value_form x.now) (store_form store.now)) }
{
    match p {
        TypedProperty::Declared(c, place) => read_declared(alloc, unit, c, place, x, store),
        TypedProperty::EntryName => entry_name_of(alloc, unit, x),
        TypedProperty::Ordinal => ordinal_of(x),
        TypedProperty::Size => size_of(x, store),
        TypedProperty::Length => length_of(x),
        TypedProperty::Code => code_of(x),
    }
}

/// A property of an object gets a value.
pub fn write_property(
    unit: &TypedUnit,
    p: TypedProperty,
    x: &DirectValue,
    new: DirectValue,
    store: &mut DirectStore<'_>,
) -> Result<(), Abrupt>
    ensures { AgreesDone result (store_form store.new)
        (spec.write_property (unit_form unit.now) p (value_form x.now) (value_form new) (store_form store.old)) }
{
    match p {
        TypedProperty::Declared(c, place) => {
            let slot = slot_in(unit, c, place, x)?;
            store.write_slot(x, slot, new)
        }
        TypedProperty::EntryName
        | TypedProperty::Ordinal
        | TypedProperty::Size
        | TypedProperty::Length
        | TypedProperty::Code => Err(Abrupt::Stopped(Stop::Unfit)),
    }
}
