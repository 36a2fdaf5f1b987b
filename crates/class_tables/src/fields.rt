//! The fields of objects.

ghost use Rattle.class_tables.specs.Objects.{object_field, object_fields, own_object_fields};
ghost use Rattle.std.specs.Prelude.{◌≡◌, ◌++◌, IfOk, OnOk};

use crate::headers::reversed;
use class_constants::field_kind;
use class_constants::fields::{fields_at, is_final};
use class_headers::{ClassTable, FieldHeader};
use class_linked::LinkedField;
use class_members::Hierarchy;
use kt_base::NoMemory;
use sqlite_items::Items;
use std::alloc::Global;

fn object_field(headers: &ClassTable, class: usize, field: &FieldHeader) -> LinkedField
    ensures { result ≡ object_field headers.now class field.now }
{
    LinkedField {
        owner: class,
        kind: field_kind(headers, field.descriptor.as_slice()),
        is_final: is_final(field.flags),
    }
}

/// Puts the fields that a class declares behind those that are there.
fn push_fields(
    headers: &ClassTable,
    class: usize,
    into: &mut Items<LinkedField>,
) -> Result<(), NoMemory>
    ensures { OnOk result (into.new ≡ into.old ++ own_object_fields headers.now class) }
{
    for field in fields_at(headers.as_slice(), class) {
        into.push(object_field(headers, class, field))?;
    }
    Ok(())
}

/// The fields of an object of a class, those of the class above first.
#[tactic(auto, using(class_constants::proofs::Growing::flat_grows))]
pub fn object_fields(
    alloc: Global,
    h: &Hierarchy,
    class: usize,
) -> Result<Items<LinkedField>, NoMemory>
    ensures { IfOk result (λ fields. fields ≡ object_fields h.now class) }
{
    let classes = reversed(alloc, h.chain(class))?;
    let mut fields = Items::new(alloc);
    for each in classes.as_slice() {
        push_fields(&h.headers, *each, &mut fields)?;
    }
    Ok(fields)
}
