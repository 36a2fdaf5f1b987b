//! Fields (JVMS SE 8 §4.5).

ghost use Rattle.jvm_class_formats.specs.Formats.{counted, times};
ghost use Rattle.jvm_class_formats.specs.Reads.{Reads};
ghost use Rattle.jvm_class_grammar.specs.Grammar as grammar;
ghost use Rattle.jvm_class_types.specs.Seen.{field_seen};
ghost use Rattle.std.specs.Prelude.{◌≡◌, map};

use crate::flags::field_flags;
use crate::texts::{TextKind, text};
use jvm_class_formats::numbers::{half, only_half};
use jvm_class_formats::{Place, ReadErr};
use jvm_class_types::Field;
use jvm_pool::Pool;
use std::alloc::Global;

/// A field: its flags, its name, its descriptor, and no attributes.
fn field<'a>(pool: &Pool, alloc: Global, place: Place<'a>) -> Result<(Field, Place<'a>), ReadErr>
    ensures { Reads (λ x. (field_seen x.0, x.1)) result ((grammar.field pool.now).read place.entry) }
{
    let (flags, place) = field_flags(place)?;
    let (name, place) = text(TextKind::Name, pool, alloc, place)?;
    let (descriptor, place) = text(TextKind::FieldDescriptor, pool, alloc, place)?;
    let (_, place) = only_half(0, place)?;
    Ok((
        Field {
            flags,
            name,
            descriptor,
        },
        place,
    ))
}

/// So many fields.
fn some_fields<'a>(
    pool: &Pool,
    alloc: Global,
    count: u16,
    place: Place<'a>,
) -> Result<(Vec<Field>, Place<'a>), ReadErr>
    ensures { Reads (λ x. (map field_seen x.0.items, x.1)) result
        ((times (grammar.field pool.now) count).read place.entry) }
{
    let mut fields = Vec::new(alloc);
    let mut spot = place;
    for i in 0..count {
        let (field, behind) = field(pool, alloc, spot)?;
        fields.push(field)?;
        spot = behind;
    }
    Ok((fields, spot))
}

/// Fields behind their number. Refused at the first item in file order that breaks its rule.
pub fn fields<'a>(
    pool: &Pool,
    alloc: Global,
    place: Place<'a>,
) -> Result<(Vec<Field>, Place<'a>), ReadErr>
    ensures { Reads (λ x. (map field_seen x.0.items, x.1)) result
        ((counted (grammar.field pool.now)).read place.entry) }
{
    let (count, place) = half(place)?;
    some_fields(pool, alloc, count, place)
}
