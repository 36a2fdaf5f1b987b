//! Fields (JVMS SE 8 §4.5).

ghost use Rattle.jvm_class_formats.specs.Formats.{counted};
ghost use Rattle.jvm_class_grammar.specs.Grammar as grammar;
ghost use Rattle.jvm_class_types.specs.Seen.{field_seen};
ghost use Rattle.jvm_pieces.specs.Pieces.{pieces};
ghost use Rattle.std.specs.List.{flat_map};
ghost use Rattle.std.specs.Prelude.{◌≡◌, ◌<◌, ◌^◌, ◌++◌, length, map, OnOk};

use crate::items::{put_half, put_text};
use jvm_class_types::Field;
use jvm_pool::Pool;
use kt_base::NoMemory;
use std::alloc::Global;

/// Appends a field.
#[tactic(auto, using(crate::proofs::Appends::four_parts))]
fn put_field(field: &Field, pool: &Pool, alloc: Global, into: &mut Vec<u8>) -> Result<(), NoMemory>
    ensures { OnOk result (into.new.items
        ≡ into.old.items ++ pieces pool.now ((grammar.field pool.now).spell (field_seen field.now))) }
{
    put_half(field.flags.number(), into)?;
    put_text(&field.name, pool, alloc, into)?;
    put_text(&field.descriptor, pool, alloc, into)?;
    put_half(0, into)?;
    Ok(())
}

/// Appends each of these fields.
fn put_each(
    fields: &[Field],
    pool: &Pool,
    alloc: Global,
    into: &mut Vec<u8>,
) -> Result<(), NoMemory>
    ensures { OnOk result (into.new.items ≡ into.old.items
        ++ pieces pool.now (flat_map (grammar.field pool.now).spell (map field_seen fields.now))) }
{
    for field in fields {
        put_field(field, pool, alloc, into)?;
    }
    Ok(())
}

/// Appends fields behind their number.
pub fn put_fields(
    fields: &[Field],
    pool: &Pool,
    alloc: Global,
    into: &mut Vec<u8>,
) -> Result<(), NoMemory>
    requires { length fields.now < 2 ^ 16 }
    ensures { OnOk result (into.new.items ≡ into.old.items
        ++ pieces pool.now ((counted (grammar.field pool.now)).spell (map field_seen fields.now))) }
{
    put_half(fields.len() as u16, into)?;
    put_each(fields, pool, alloc, into)?;
    Ok(())
}
