//! What stands behind the pool of a class file (JVMS SE 8 §4.1).

ghost use Rattle.jvm_class_formats.specs.Formats.{counted};
ghost use Rattle.jvm_class_grammar.specs.Grammar as grammar;
ghost use Rattle.jvm_class_types.specs.Flags.{class_flags};
ghost use Rattle.jvm_class_types.specs.Seen.{class_seen, field_seen, method_seen};
ghost use Rattle.jvm_maps.specs.Types as types;
ghost use Rattle.jvm_pieces.specs.Pieces.{index, pieces};
ghost use Rattle.jvm_pool.specs.declared.entries.Entry.TheVariants as entry;
ghost use Rattle.std.specs.Int.{to_be_bytes, w16};
ghost use Rattle.std.specs.Prelude.{◌≡◌, ◌++◌, map, OnOk};

use crate::methods::put_methods;
use class_writer_members::fields::put_fields;
use class_writer_members::interfaces::put_interfaces;
use class_writer_members::items::{put_class, put_half};
use jvm_class_types::ClassFile;
use kt_base::NoMemory;
use std::alloc::Global;

/// Appends the flags of a class, its name, and that of the class above it.
fn put_names(class: &ClassFile, into: &mut Vec<u8>) -> Result<(), NoMemory>
    ensures { OnOk result (into.new.items ≡ into.old.items ++ (to_be_bytes w16 (class_flags class.now.flags)
        ++ (to_be_bytes w16 (index class.now.pool (entry.Class class.now.name))
        ++ to_be_bytes w16 (index class.now.pool (entry.Class class.now.super_class))))) }
{
    put_half(class.flags.number(), into)?;
    put_class(&class.name, &class.pool, into)?;
    put_class(&class.super_class, &class.pool, into)?;
    Ok(())
}

/// Appends the members of a class, and that it has no attributes.
fn put_members(class: &ClassFile, alloc: Global, into: &mut Vec<u8>) -> Result<(), NoMemory>
    requires interfaces { (counted (types.class_name class.now.pool)).allows class.now.interfaces.items }
    requires fields { (counted (grammar.field class.now.pool)).allows (map field_seen class.now.fields.items) }
    requires methods { (counted (grammar.method class.now.pool class.now.name)).allows
        (map method_seen class.now.methods.items) }
    ensures { OnOk result (into.new.items ≡ into.old.items
        ++ (pieces class.now.pool ((counted (types.class_name class.now.pool)).spell class.now.interfaces.items)
        ++ (pieces class.now.pool ((counted (grammar.field class.now.pool)).spell
        (map field_seen class.now.fields.items))
        ++ (pieces class.now.pool ((counted (grammar.method class.now.pool class.now.name)).spell
        (map method_seen class.now.methods.items)) ++ to_be_bytes w16 0)))) }
{
    put_interfaces(&class.interfaces, &class.pool, into)?;
    put_fields(&class.fields, &class.pool, alloc, into)?;
    put_methods(&class.methods, &class.name, &class.pool, alloc, into)?;
    put_half(0, into)?;
    Ok(())
}

/// Appends what stands behind the pool of a class file.
pub(crate) fn put_class_body(
    class: &ClassFile,
    alloc: Global,
    into: &mut Vec<u8>,
) -> Result<(), NoMemory>
    requires { (grammar.class class.now.pool).allows (class_seen class.now) }
    ensures { OnOk result (into.new.items ≡ into.old.items
        ++ pieces class.now.pool ((grammar.class class.now.pool).spell (class_seen class.now))) }
{
    put_names(class, into)?;
    put_members(class, alloc, into)?;
    Ok(())
}
