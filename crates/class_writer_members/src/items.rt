//! Numbers and mentions (JVMS SE 8 §4).

ghost use Rattle.jvm_pieces.specs.Pieces.{index};
ghost use Rattle.jvm_pool.specs.declared.entries.Entry.TheVariants as entry;
ghost use Rattle.std.specs.Int.{to_be_bytes, w16, w32};
ghost use Rattle.std.specs.Prelude.{◌≡◌, ◌++◌, OnOk};

use jvm_mentions::counting::text_of;
use jvm_pool::{Entry, Pool};
use kt_base::{Name, NoMemory};
use std::alloc::Global;

/// Appends a number in two bytes.
pub fn put_half(number: u16, into: &mut Vec<u8>) -> Result<(), NoMemory>
    ensures { OnOk result (into.new.items ≡ into.old.items ++ to_be_bytes w16 number) }
{
    into.extend_from_slice(&number.to_be_bytes())?;
    Ok(())
}

/// Appends a number in four bytes.
pub fn put_word(number: u32, into: &mut Vec<u8>) -> Result<(), NoMemory>
    ensures { OnOk result (into.new.items ≡ into.old.items ++ to_be_bytes w32 number) }
{
    into.extend_from_slice(&number.to_be_bytes())?;
    Ok(())
}

/// Appends the index of an entry, or 0 where it isn't there, as `index` has it.
pub fn put_index(e: &Entry, pool: &Pool, into: &mut Vec<u8>) -> Result<(), NoMemory>
    ensures { OnOk result (into.new.items ≡ into.old.items ++ to_be_bytes w16 (index pool.now e.now)) }
{
    match pool.index_of(e) {
        Some(index) => put_half(index, into),
        None => put_half(0, into),
    }
}

/// Appends the index of the text of a name.
pub fn put_text(name: &Name, pool: &Pool, alloc: Global, into: &mut Vec<u8>) -> Result<(), NoMemory>
    ensures { OnOk result (into.new.items
        ≡ into.old.items ++ to_be_bytes w16 (index pool.now (entry.Utf8 name.now))) }
{
    let text = text_of(alloc, name)?;
    put_index(&text, pool, into)
}

/// Appends the index of a class.
pub fn put_class(name: &Name, pool: &Pool, into: &mut Vec<u8>) -> Result<(), NoMemory>
    ensures { OnOk result (into.new.items
        ≡ into.old.items ++ to_be_bytes w16 (index pool.now (entry.Class name.now))) }
{
    let class = Entry::Class(name.clone()?);
    put_index(&class, pool, into)
}
