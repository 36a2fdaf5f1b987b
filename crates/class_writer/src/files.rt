//! Whole class files (JVMS SE 8 §4.1).

ghost use Rattle.jvm_class_grammar.specs.File.{head_bytes, HasClassFile, IsClassFile};
ghost use Rattle.jvm_class_types.specs.Seen.{class_seen};
ghost use Rattle.std.specs.Prelude.{◌≡◌, ◌++◌, IfOk, OnOk};

use crate::class::put_class_body;
use class_writer_members::items::{put_half, put_word};
use jvm_class_types::ClassFile;
use jvm_class_types::constants::{MAGIC, MAJOR_VERSION, MINOR_VERSION};
use jvm_pool_bytes::put_pool;
use kt_base::NoMemory;
use std::alloc::Global;

/// Appends the magic number and the version.
fn put_head(into: &mut Vec<u8>) -> Result<(), NoMemory>
    ensures { OnOk result (into.new.items ≡ into.old.items ++ head_bytes) }
{
    put_word(MAGIC, into)?;
    put_half(MINOR_VERSION, into)?;
    put_half(MAJOR_VERSION, into)?;
    Ok(())
}

/// The class file of a class that has one: no other bytes are.
pub fn write(alloc: Global, class: &ClassFile) -> Result<Vec<u8>, NoMemory>
    requires { HasClassFile class.now.pool (class_seen class.now) }
    ensures { IfOk result (λ v. IsClassFile v.items class.now.pool (class_seen class.now)) }
{
    let mut bytes = Vec::new(alloc);
    put_head(&mut bytes)?;
    put_pool(&class.pool, alloc, &mut bytes)?;
    put_class_body(class, alloc, &mut bytes)?;
    Ok(bytes)
}
