//! Objects, settled one after another.

ghost use Rattle.mach_settling.specs.Settled as spec;
ghost use Rattle.mach_value.specs.Heaps.{address_behind, object_at};
ghost use Rattle.mach_value.specs.Imported.{top_of};
ghost use Rattle.std.specs.Option.{option_copied};
ghost use Rattle.std.specs.Prelude.{◌≡◌, ◌-◌, drop, IfOk, OnOk, option_and_then, option_map};

use crate::fields::settle_fields;
use crate::shapes::{Shape, shape_of};
use kt_base::NoMemory;
use mach_value::{Field, Instance, Object, Objects, Phase, Value};
use sqlite_items::Items;
use std::alloc::Global;

/// An object that came in a lump and isn't settled.
fn unsettled_in(object: &Object) -> Option<&Instance>
    ensures { option_copied result ≡ spec.unsettled_in object.now }
{
    match object {
        Object::Instance(instance) => match instance.number {
            None => Some(instance),
            Some(_) => None,
        },
        Object::Text(_)
        | Object::Int(_)
        | Object::Long(_)
        | Object::Bool(_)
        | Object::Char(_)
        | Object::Cell(_)
        | Object::Numbers(_)
        | Object::Elements(_)
        | Object::Throwable(_, _) => None,
    }
}

fn unsettled_at(objects: &Objects, address: u64) -> Option<&Instance>
    ensures { option_copied result ≡ option_and_then spec.unsettled_in (object_at objects.now address) }
{
    match objects.at(address) {
        Some(object) => unsettled_in(object),
        None => None,
    }
}

fn settled_instance(shape: &Shape, fields: Items<Field>) -> Result<Instance, NoMemory>
    ensures { IfOk result (λ i. i ≡ spec.settled_instance shape.now fields) }
{
    Ok(Instance {
        class: shape.class.share()?,
        number: Some(shape.number),
        phase: Phase::Ready,
        fields,
    })
}

/// The message among what a throwable's lump holds.
fn message_of(fields: &[Field]) -> Value
    ensures { result ≡ (top_of fields.now).value }
{
    match fields {
        [first, ..] => first.value,
        [] => Value::Null,
    }
}

/// Without the first.
fn without_first(alloc: Global, fields: &[Field]) -> Result<Items<Field>, NoMemory>
    ensures { IfOk result (λ rest. rest ≡ drop 1 fields.now) }
{
    match fields {
        [_, rest @ ..] => Ok(Items::from_slice(alloc, rest)?),
        [] => Ok(Items::new(alloc)),
    }
}

/// An object of a class, of what its lump holds.
fn settled_object(alloc: Global, shape: &Shape, fields: Items<Field>) -> Result<Object, NoMemory>
    ensures { IfOk result (λ object. object ≡ spec.settled_object shape.now fields) }
{
    if shape.is_throwable {
        let message = message_of(fields.as_slice());
        let rest = without_first(alloc, fields.as_slice())?;
        Ok(Object::Throwable(message, settled_instance(shape, rest)?))
    } else {
        Ok(Object::Instance(settled_instance(shape, fields)?))
    }
}

/// Settles an object as one of a class.
fn settle_as(
    alloc: Global,
    objects: &mut Objects,
    shape: &Shape,
    address: u64,
    fields: &[Field],
) -> Result<(), NoMemory>
    ensures { OnOk result (objects.new ≡ spec.settled_as (Some shape.now) address fields.now objects.old) }
{
    let settled = settle_fields(alloc, objects, shape.kinds.as_slice(), fields)?;
    let object = settled_object(alloc, shape, settled)?;
    objects.put(address, object);
    Ok(())
}

/// A class with a copy of fields.
#[derive(Drop)]
struct Found<'a> {
    shape: &'a Shape,
    fields: Items<Field>,
}

/// The class and the fields of an object that is to be settled.
fn found_at<'a>(
    alloc: Global,
    objects: &Objects,
    shapes: &'a [Shape],
    address: u64,
) -> Result<Option<Found<'a>>, NoMemory>
    ensures { IfOk result (λ found. spec.settled_at shapes.now address objects.now
        ≡ spec.settled_found found address objects.now) }
{
    match unsettled_at(objects, address) {
        Some(instance) => match shape_of(shapes, instance.class.name()) {
            Some(shape) => Ok(Some(Found {
                shape,
                fields: Items::from_slice(alloc, instance.fields.as_slice())?,
            })),
            None => Ok(None),
        },
        None => Ok(None),
    }
}

/// Settles the object at an address, where it came in a lump and its class is known.
fn settle_at(
    alloc: Global,
    objects: &mut Objects,
    shapes: &[Shape],
    address: u64,
) -> Result<(), NoMemory>
    ensures { OnOk result (objects.new ≡ spec.settled_at shapes.now address objects.old) }
{
    match found_at(alloc, objects, shapes, address)? {
        Some(found) => {
            let fields = found.fields.as_slice();
            settle_as(alloc, objects, found.shape, address, fields)
        }
        None => Ok(()),
    }
}

/// Settles the objects that an import made: those from an address on.
///
/// Each becomes an object of the class that it names, and each number in one of its fields of reference kind goes into a
/// new box behind all objects.
pub fn settle(
    alloc: Global,
    objects: &mut Objects,
    shapes: &[Shape],
    first: u64,
) -> Result<(), NoMemory>
    ensures { OnOk result (objects.new
        ≡ spec.settled shapes.now (address_behind objects.old - first) first objects.old) }
{
    let count = objects.next().saturating_sub(first);
    for turn in 0..count {
        settle_at(alloc, objects, shapes, first + turn)?;
    }
    Ok(())
}
