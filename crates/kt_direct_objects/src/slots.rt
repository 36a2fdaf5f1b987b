//! Which slots of an object have which properties: those of its superclasses first, from above, then its own.

ghost use Rattle.kt_direct_values.specs.Forms.{value_form};
ghost use Rattle.kt_meaning.specs.Classes as spec;
ghost use Rattle.kt_typed.specs.Headers.{class_form, property_form};
ghost use Rattle.kt_typed.specs.Units.{unit_form};
ghost use Rattle.std.specs.List.{flat_map, sum_by};
ghost use Rattle.std.specs.Prelude.{◌≡◌, ◌+◌, ◌++◌, IfOk, OnOk, length, map, option_map, reverse, take};

use kt_direct_classes::{blank, own_properties, superclass_of};
use kt_direct_values::DirectValue;
use kt_typed::{DeclaredClass, DeclaredProperty, TypedUnit};
use sqlite_items::{Items, at};
use std::alloc::{AllocError, Global};

/// The sum of two numbers of slots. One that is no number of slots is want of memory.
fn sum(first: usize, second: usize) -> Result<usize, AllocError>
    ensures { IfOk result (λ n. n ≡ first + second) }
{
    match first.checked_add(second) {
        Some(n) => Ok(n),
        None => Err(AllocError),
    }
}

/// How many properties a class has with its superclasses, at most so many steps up.
#[tactic(auto, unfolding(kt_meaning::specs::Classes::upwards))]
fn slots_upwards(unit: &TypedUnit, steps: usize, c: u32) -> Result<usize, AllocError>
    ensures { IfOk result (λ n. n ≡ sum_by (λ d. length (spec.own_properties (unit_form unit.now) d))
        (spec.upwards (unit_form unit.now) steps c)) }
{
    if steps == 0 {
        return Ok(0);
    }
    let own = own_properties(unit, c).len();
    match superclass_of(unit, c) {
        Some(above) => {
            let inherited = slots_upwards(unit, steps - 1, above)?;
            let all = sum(own, inherited)?;
            Ok(all)
        }
        None => Ok(own),
    }
}

/// The slot of the first property of a class.
#[tactic(auto, unfolding(kt_meaning::specs::Classes::upwards))]
pub fn first_slot(unit: &TypedUnit, c: u32) -> Result<usize, AllocError>
    ensures { IfOk result (λ n. n ≡ spec.first_slot (unit_form unit.now) c) }
{
    let steps = unit.headers.classes.len();
    if steps == 0 {
        return Ok(0);
    }
    match superclass_of(unit, c) {
        Some(above) => {
            let inherited = slots_upwards(unit, steps - 1, above)?;
            Ok(inherited)
        }
        None => Ok(0),
    }
}

/// Appends what stands in the slots of properties before they are assigned.
fn put_blanks(
    into: &mut Items<DirectValue>,
    properties: &[DeclaredProperty],
) -> Result<(), AllocError>
    ensures { OnOk result (map value_form into.new
        ≡ map value_form into.old ++ map (λ p. spec.blank p.annotation) (map property_form properties.now)) }
{
    for property in properties {
        into.push(blank(&property.annotation))?;
    }
    Ok(())
}

/// Appends what stands in the slots of a class and of its superclasses, at most so many steps up.
#[tactic(auto, unfolding(kt_meaning::specs::Classes::upwards))]
fn put_blanks_upwards(
    into: &mut Items<DirectValue>,
    unit: &TypedUnit,
    steps: usize,
    c: u32,
) -> Result<(), AllocError>
    ensures { let u = unit_form unit.now in OnOk result (map value_form into.new
        ≡ map value_form into.old ++ map (λ p. spec.blank p.annotation)
        (flat_map (spec.own_properties u) (reverse (spec.upwards u steps c)))) }
{
    if steps == 0 {
        return Ok(());
    }
    match superclass_of(unit, c) {
        Some(above) => put_blanks_upwards(into, unit, steps - 1, above)?,
        None => {}
    }
    put_blanks(into, own_properties(unit, c))
}

/// What stands in the slots of a new object of a class.
pub fn blank_slots(
    alloc: Global,
    unit: &TypedUnit,
    c: u32,
) -> Result<Items<DirectValue>, AllocError>
    ensures { let u = unit_form unit.now in IfOk result (λ slots. map value_form slots
        ≡ map (λ p. spec.blank p.annotation) (spec.all_properties u c)) }
{
    let mut slots = Items::new(alloc);
    put_blanks_upwards(&mut slots, unit, unit.headers.classes.len(), c)?;
    Ok(slots)
}

/// The declaration of a class.
fn class_at(unit: &TypedUnit, c: u32) -> Option<&DeclaredClass>
    ensures { option_map (λ k. class_form k.now) result ≡ spec.class_at (unit_form unit.now) c }
{
    at(unit.headers.classes.as_slice(), c as usize)
}

/// The properties of a class that its parameters declare, which are its first ones.
#[tactic(auto, using(crate::proofs::Parameters::taken_first, crate::proofs::Parameters::taken_all))]
fn parameter_properties(class: &DeclaredClass) -> &[DeclaredProperty]
    ensures { let k = class_form class.now in
        map property_form result.now ≡ take (length k.parameters) k.properties }
{
    let properties = class.properties.as_slice();
    let count = class.parameters.len();
    if count < properties.len() {
        &properties[..count]
    } else {
        properties
    }
}

/// The properties that a data class compares and prints: those that its parameters declare.
pub fn data_properties(unit: &TypedUnit, c: u32) -> &[DeclaredProperty]
    ensures { map property_form result.now ≡ spec.data_properties (unit_form unit.now) c }
{
    match class_at(unit, c) {
        Some(class) => parameter_properties(class),
        None => &[],
    }
}
