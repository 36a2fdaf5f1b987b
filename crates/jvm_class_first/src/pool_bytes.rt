//! The bytes of a constant pool (JVMS SE 8 §4.4).

ghost use Rattle.jvm_class_first.specs.ClassFile.{AreOfPlain, HasParts, IsClosed, IsOfPlain, cp_info, u2};
ghost use Rattle.jvm_class_first.specs.ClassFile as format;
ghost use Rattle.jvm_pieces.specs.Pieces.{index};
ghost use Rattle.jvm_pool.specs.declared.entries.Entry.TheVariants as entry;
ghost use Rattle.jvm_pool.specs.Entries.{units};
ghost use Rattle.jvm_pool.specs.Mentions.{has};
ghost use Rattle.jvm_pool.specs.Modified.{modified};
ghost use Rattle.std.specs.Prelude.{◌≡◌, ◌+◌, ◌<◌, ◌^◌, ◌∷◌, ◌++◌, length, true, OnOk};

use crate::names::text;
use jvm_pool::{Entry, Pool, put_modified};
use kt_base::{Name, NoMemory, Text16};
use std::alloc::Global;

/// Appends the count and the entries.
pub fn put_pool(pool: &Pool, alloc: Global, into: &mut Vec<u8>) -> Result<(), NoMemory>
    requires kinds { AreOfPlain pool.now }
    requires closed { IsClosed pool.now }
    ensures fits { OnOk result (1 + units pool.now < 2 ^ 16) }
    ensures ok { OnOk result (into.new.items ≡ into.old.items ++ format.pool pool.now) }
{
    into.extend_from_slice(&(pool.count() as u16).to_be_bytes())?;
    for e in pool.entries() {
        put_entry(e, pool, alloc, into)?;
    }
    Ok(())
}

/// Appends an entry of the pool.
fn put_entry(e: &Entry, pool: &Pool, alloc: Global, into: &mut Vec<u8>) -> Result<(), NoMemory>
    requires kind { IsOfPlain e.now }
    requires parts { HasParts pool.now e.now }
    ensures { OnOk result (into.new.items ≡ into.old.items ++ cp_info pool.now e.now) }
{
    match e {
        Entry::Utf8(text) => put_text(text, alloc, into),
        Entry::Int(n) => {
            into.push(3)?;
            into.extend_from_slice(&n.to_be_bytes())?;
            Ok(())
        }
        Entry::Class(name) => {
            into.push(7)?;
            put_text_index(name, pool, alloc, into)
        }
        Entry::Method(class, name, descriptor) => put_method(class, name, descriptor, pool, into),
        Entry::NameAndType(name, descriptor) => {
            into.push(12)?;
            put_text_index(name, pool, alloc, into)?;
            put_text_index(descriptor, pool, alloc, into)
        }
        Entry::Long(_) | Entry::Text(_) | Entry::Field(_, _, _) | Entry::InterfaceMethod(_, _, _) =>
            { unreachable!() }
    }
}

/// Appends a method.
fn put_method(
    class: &Name,
    name: &Name,
    descriptor: &Name,
    pool: &Pool,
    into: &mut Vec<u8>,
) -> Result<(), NoMemory>
    requires { HasParts pool.now (entry.Method class.now name.now descriptor.now) }
    ensures { OnOk result (into.new.items ≡ into.old.items
        ++ cp_info pool.now (entry.Method class.now name.now descriptor.now)) }
{
    into.push(10)?;
    put_class_index(class, pool, into)?;
    put_pair_index(name, descriptor, pool, into)
}

/// Appends the index of a class.
fn put_class_index(name: &Name, pool: &Pool, into: &mut Vec<u8>) -> Result<(), NoMemory>
    requires { has pool.now (entry.Class name.now) ≡ true }
    ensures { OnOk result (into.new.items ≡ into.old.items ++ u2 (index pool.now (entry.Class name.now))) }
{
    let class = Entry::Class(name.clone()?);
    put_index(&class, pool, into)
}

/// Appends the index of a name and its descriptor.
fn put_pair_index(
    name: &Name,
    descriptor: &Name,
    pool: &Pool,
    into: &mut Vec<u8>,
) -> Result<(), NoMemory>
    requires { has pool.now (entry.NameAndType name.now descriptor.now) ≡ true }
    ensures { OnOk result (into.new.items ≡ into.old.items
        ++ u2 (index pool.now (entry.NameAndType name.now descriptor.now))) }
{
    let pair = Entry::NameAndType(name.clone()?, descriptor.clone()?);
    put_index(&pair, pool, into)
}

/// Appends a text behind its tag and its length.
fn put_text(text: &Text16, alloc: Global, into: &mut Vec<u8>) -> Result<(), NoMemory>
    requires { length (modified text.now) < 2 ^ 16 }
    ensures { OnOk result (into.new.items ≡ into.old.items ++ 1
        ∷ u2 (length (modified text.now)) ++ modified text.now) }
{
    let mut bytes = Vec::new(alloc);
    put_modified(text, &mut bytes)?;
    into.push(1)?;
    into.extend_from_slice(&(bytes.len() as u16).to_be_bytes())?;
    into.extend_from_slice(bytes.as_slice())?;
    Ok(())
}

/// Appends the index of the text of a name.
fn put_text_index(
    name: &Name,
    pool: &Pool,
    alloc: Global,
    into: &mut Vec<u8>,
) -> Result<(), NoMemory>
    requires { has pool.now (entry.Utf8 name.now) ≡ true }
    ensures { OnOk result (into.new.items ≡ into.old.items ++ u2 (index pool.now (entry.Utf8 name.now))) }
{
    let text = text(alloc, name.as_bytes())?;
    put_index(&text, pool, into)
}

/// Appends the index of an entry that is there.
fn put_index(e: &Entry, pool: &Pool, into: &mut Vec<u8>) -> Result<(), NoMemory>
    requires { has pool.now e.now ≡ true }
    ensures { OnOk result (into.new.items ≡ into.old.items ++ u2 (index pool.now e.now)) }
{
    let index = pool.index_of(e).unwrap();
    into.extend_from_slice(&index.to_be_bytes())?;
    Ok(())
}
