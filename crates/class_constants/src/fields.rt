//! Where fields stand in objects.

ghost use Rattle.class_constants.specs.Fields.{above_in, fields_above, fields_at, fields_declared, is_final};
ghost use Rattle.class_constants.specs.Fields.{is_final_field};
ghost use Rattle.std.specs.Prelude.{◌≡◌, ◌+◌, IfOk, slice_get};

use class_headers::{FieldHeader, Header};
use class_members::Hierarchy;
use jvm_class_types::FieldFlags;
use kt_base::NoMemory;
use sqlite_items::at;

/// Whether a field is assigned while its object is made alone.
pub fn is_final(flags: FieldFlags) -> bool
    ensures { result ≡ is_final flags }
{
    match flags {
        FieldFlags::Final => true,
        FieldFlags::Variable => false,
    }
}

/// The fields that a class declares.
pub fn fields_at(headers: &[Header], class: usize) -> &[FieldHeader]
    ensures { result.now ≡ fields_at headers.now class }
{
    match at(headers, class) {
        None => &[],
        Some(header) => header.fields.as_slice(),
    }
}

/// Whether the field at a place of a class is final.
pub(crate) fn is_final_at(headers: &[Header], class: usize, place: usize) -> bool
    ensures { result ≡ is_final_field (slice_get (fields_at headers.now class) place) }
{
    match at(fields_at(headers, class), place) {
        None => false,
        Some(field) => is_final(field.flags),
    }
}

/// The sum. One that no number of places can be counts as want of memory.
pub fn sum(a: usize, b: usize) -> Result<usize, NoMemory>
    ensures { IfOk result (λ n. n ≡ a + b) }
{
    match a.checked_add(b) {
        Some(n) => Ok(n),
        None => Err(NoMemory),
    }
}

/// How many fields these classes declare.
fn fields_declared(headers: &[Header], classes: &[usize]) -> Result<usize, NoMemory>
    ensures { IfOk result (λ n. n ≡ fields_declared headers.now classes.now) }
{
    let mut count = 0;
    for class in classes {
        count = sum(count, fields_at(headers, *class).len())?;
    }
    Ok(count)
}

/// Without the first.
pub fn above_in(classes: &[usize]) -> &[usize]
    ensures { result.now ≡ above_in classes.now }
{
    match classes {
        [] => classes,
        [_, rest @ ..] => rest,
    }
}

/// How many fields an object of a class has from the classes above.
pub(crate) fn fields_above(h: &Hierarchy, class: usize) -> Result<usize, NoMemory>
    ensures { IfOk result (λ n. n ≡ fields_above h.now class) }
{
    fields_declared(h.headers.as_slice(), above_in(h.chain(class)))
}
