//! Properties that every file has.

ghost use Rattle.kt_direct_values.specs.Agree.{AgreesValue};
ghost use Rattle.kt_direct_values.specs.Forms.{store_form, value_form};
ghost use Rattle.kt_meaning.specs.Access as spec;
ghost use Rattle.kt_typed.specs.Units.{unit_form};
ghost use Rattle.kt_values.specs.Numbers.{count_as_int};
ghost use Rattle.kt_values.specs.Runs as runs;
ghost use Rattle.kt_values.specs.Runs.{Store};
ghost use Rattle.std.specs.Prelude.{◌≡◌};

use kt_direct_classes::entry_name;
use kt_direct_values::texts::ascii_text;
use kt_direct_values::{Abrupt, DirectShape, DirectStore, DirectValue, Stop};
use kt_typed::TypedUnit;
use std::alloc::Global;

/// A number of units or elements as an `Int`: its low 32 bits.
fn count_as_int(count: usize) -> i32
    ensures { result ≡ count_as_int count }
{
    ((count % 0x1_0000_0000) as u32).cast_signed()
}

/// The name of an entry of an enum.
pub fn entry_name_of(
    alloc: Global,
    unit: &TypedUnit,
    x: &DirectValue,
) -> Result<DirectValue, Abrupt>
    ensures { (s : Store) → AgreesValue result s
        (runs.or_unfit (spec.entry_name_of (unit_form unit.now) (value_form x.now)) s) }
{
    match x {
        DirectValue::Entry(c, ordinal) => match entry_name(unit, *c, *ordinal) {
            Some(name) => Ok(DirectValue::Text(ascii_text(alloc, name)?)),
            None => Err(Abrupt::Stopped(Stop::Unfit)),
        },
        DirectValue::Int(_)
        | DirectValue::Long(_)
        | DirectValue::Truth(_)
        | DirectValue::Character(_)
        | DirectValue::Text(_)
        | DirectValue::Null
        | DirectValue::Unit
        | DirectValue::Cell(_)
        | DirectValue::Closure(_, _)
        | DirectValue::Reference(_, _) => Err(Abrupt::Stopped(Stop::Unfit)),
    }
}

/// The ordinal of an entry of an enum. One that is no `Int` is want of memory.
pub fn ordinal_of(x: &DirectValue) -> Result<DirectValue, Abrupt>
    ensures { (s : Store) → AgreesValue result s (runs.or_unfit (spec.ordinal_of (value_form x.now)) s) }
{
    match x {
        DirectValue::Entry(_, ordinal) => {
            if *ordinal > 0x7fff_ffff {
                return Err(Abrupt::NoMemory);
            }
            Ok(DirectValue::Int(*ordinal as i32))
        }
        DirectValue::Int(_)
        | DirectValue::Long(_)
        | DirectValue::Truth(_)
        | DirectValue::Character(_)
        | DirectValue::Text(_)
        | DirectValue::Null
        | DirectValue::Unit
        | DirectValue::Cell(_)
        | DirectValue::Closure(_, _)
        | DirectValue::Reference(_, _) => Err(Abrupt::Stopped(Stop::Unfit)),
    }
}

/// `length` of a string.
pub fn length_of(x: &DirectValue) -> Result<DirectValue, Abrupt>
    ensures { (s : Store) → AgreesValue result s (runs.or_unfit (spec.length_of (value_form x.now)) s) }
{
    match x {
        DirectValue::Text(t) => Ok(DirectValue::Int(count_as_int(t.units().len()))),
        DirectValue::Int(_)
        | DirectValue::Long(_)
        | DirectValue::Truth(_)
        | DirectValue::Character(_)
        | DirectValue::Null
        | DirectValue::Unit
        | DirectValue::Entry(_, _)
        | DirectValue::Cell(_)
        | DirectValue::Closure(_, _)
        | DirectValue::Reference(_, _) => Err(Abrupt::Stopped(Stop::Unfit)),
    }
}

/// `code` of a character.
pub fn code_of(x: &DirectValue) -> Result<DirectValue, Abrupt>
    ensures { (s : Store) → AgreesValue result s (runs.or_unfit (spec.code_of (value_form x.now)) s) }
{
    match x {
        DirectValue::Character(c) => Ok(DirectValue::Int(*c as i32)),
        DirectValue::Int(_)
        | DirectValue::Long(_)
        | DirectValue::Truth(_)
        | DirectValue::Text(_)
        | DirectValue::Null
        | DirectValue::Unit
        | DirectValue::Entry(_, _)
        | DirectValue::Cell(_)
        | DirectValue::Closure(_, _)
        | DirectValue::Reference(_, _) => Err(Abrupt::Stopped(Stop::Unfit)),
    }
}

/// How many elements an array has, as an `Int`.
fn slots_of(x: &DirectValue, store: &DirectStore<'_>) -> Result<DirectValue, Abrupt>
    ensures { AgreesValue result (store_form store.now)
        (spec.count_slots (value_form x.now) (store_form store.now)) }
{
    match store.object_of(x) {
        Some(object) => Ok(DirectValue::Int(count_as_int(object.slots.len()))),
        None => Err(Abrupt::Stopped(Stop::Unfit)),
    }
}

/// `size` of an array.
pub fn size_of(x: &DirectValue, store: &DirectStore<'_>) -> Result<DirectValue, Abrupt>
    ensures { AgreesValue result (store_form store.now) (spec.size_of (value_form x.now) (store_form store.now)) }
{
    match x {
        DirectValue::Reference(shape, _) => match shape {
            DirectShape::Numbers => slots_of(x, store),
            DirectShape::Elements => slots_of(x, store),
            DirectShape::Instance(_) | DirectShape::Variable => Err(Abrupt::Stopped(Stop::Unfit)),
        },
        DirectValue::Int(_)
        | DirectValue::Long(_)
        | DirectValue::Truth(_)
        | DirectValue::Character(_)
        | DirectValue::Text(_)
        | DirectValue::Null
        | DirectValue::Unit
        | DirectValue::Entry(_, _)
        | DirectValue::Cell(_)
        | DirectValue::Closure(_, _) => Err(Abrupt::Stopped(Stop::Unfit)),
    }
}
