//! Fields, settled one after another.

ghost use Rattle.mach_settling.specs.Settled as spec;
ghost use Rattle.mach_settling.specs.Settled.{Settling, settled_field, settled_fields};
ghost use Rattle.std.specs.Prelude.{◌≡◌, [], IfOk, OnOk};

use crate::shapes::kind_at;
use kt_base::NoMemory;
use mach_value::importing::{box_of, final_field};
use mach_value::{Field, FieldKind, Object, Objects, Value};
use sqlite_items::Items;
use std::alloc::Global;

/// The box that a field wants.
fn wanted_box(kind: FieldKind, field: Field) -> Option<Object>
    ensures { result ≡ spec.wanted_box kind field }
{
    match kind {
        FieldKind::Reference => box_of(field),
        FieldKind::Int => None,
        FieldKind::Long => None,
        FieldKind::Bool => None,
        FieldKind::Char => None,
    }
}

/// The value of a field, whose number is put into a new box where it wants one.
fn settled_value(objects: &mut Objects, kind: FieldKind, field: Field) -> Result<Value, NoMemory>
    ensures objects { OnOk result (objects.new ≡ spec.objects_with (spec.wanted_box kind field) objects.old) }
    ensures value { IfOk result (λ x. x ≡ spec.value_with (spec.wanted_box kind field) field.value objects.old) }
{
    match wanted_box(kind, field) {
        Some(object) => {
            let address = objects.next();
            objects.push(object)?;
            Ok(Value::Ref(address))
        }
        None => Ok(field.value),
    }
}

/// One more field, settled.
fn settle_field(
    objects: &mut Objects,
    settled: &mut Items<Field>,
    kind: FieldKind,
    field: Field,
) -> Result<(), NoMemory>
    ensures objects { OnOk result (objects.new
        ≡ (settled_field kind field (record { objects = objects.old; fields = settled.old })).objects) }
    ensures fields { OnOk result (settled.new
        ≡ (settled_field kind field (record { objects = objects.old; fields = settled.old })).fields) }
{
    let value = settled_value(objects, kind, field)?;
    settled.push(final_field(kind, value))?;
    Ok(())
}

/// Fields, settled by their kinds.
pub fn settle_fields(
    alloc: Global,
    objects: &mut Objects,
    kinds: &[FieldKind],
    fields: &[Field],
) -> Result<Items<Field>, NoMemory>
    ensures objects { OnOk result (objects.new
        ≡ (settled_fields kinds.now 0 fields.now (record { objects = objects.old; fields = [] })).objects) }
    ensures fields { IfOk result (λ settled. settled
        ≡ (settled_fields kinds.now 0 fields.now (record { objects = objects.old; fields = [] })).fields) }
{
    let mut settled = Items::new(alloc);
    for (at, field) in fields.iter().enumerate() {
        settle_field(objects, &mut settled, kind_at(kinds, at, *field), *field)?;
    }
    Ok(settled)
}
