//! The bytes of a constant pool (JVMS SE 8 §4.1, §4.4).

ghost use Rattle.jvm_pieces.specs.Pieces.{index};
ghost use Rattle.jvm_pool.specs.declared.entries.Entry.TheVariants as entry;
ghost use Rattle.jvm_pool.specs.Mentions.{has};
ghost use Rattle.jvm_pool.specs.Modified.{modified};
ghost use Rattle.jvm_pool_bytes.specs.Spelling as spelling;
ghost use Rattle.jvm_pool_bytes.specs.Spelling.{HasParts, IsEntry, IsPool, cp_info};
ghost use Rattle.std.specs.Int.{to_be_bytes, w16};
ghost use Rattle.std.specs.List.{flat_map};
ghost use Rattle.std.specs.Prelude.{◌≡◌, ◌<◌, ◌^◌, ◌∷◌, ◌++◌, [], length, true, IfOk, OnOk};

use jvm_class_types::constants::{
    CONSTANT_CLASS, CONSTANT_FIELDREF, CONSTANT_INTEGER, CONSTANT_INTERFACE_METHODREF,
    CONSTANT_LONG, CONSTANT_METHODREF, CONSTANT_NAME_AND_TYPE, CONSTANT_STRING, CONSTANT_UTF8,
};
use jvm_pool::{Entry, Pool, put_modified};
use kt_base::{Name, NoMemory, Text16};
use std::alloc::Global;

/// Appends the count of the pool and its entries, as a class file has them behind its version.
pub fn put_pool(pool: &Pool, alloc: Global, into: &mut Vec<u8>) -> Result<(), NoMemory>
    requires { IsPool pool.now }
    ensures { OnOk result (into.new.items ≡ into.old.items ++ spelling.pool pool.now) }
{
    into.extend_from_slice(&(pool.count() as u16).to_be_bytes())?;
    for e in pool.entries() {
        put_entry(e, pool, alloc, into)?;
    }
    Ok(())
}

/// Appends an entry of the pool.
fn put_entry(e: &Entry, pool: &Pool, alloc: Global, into: &mut Vec<u8>) -> Result<(), NoMemory>
    requires fits { IsEntry e.now }
    requires parts { HasParts pool.now e.now }
    ensures { OnOk result (into.new.items ≡ into.old.items ++ cp_info pool.now e.now) }
{
    match e {
        Entry::Utf8(text) => put_text(text, alloc, into),
        Entry::Int(n) => put_number(CONSTANT_INTEGER, &n.to_be_bytes(), into),
        Entry::Long(n) => put_number(CONSTANT_LONG, &n.to_be_bytes(), into),
        Entry::Class(name) => put_one(CONSTANT_CLASS, &text_of(alloc, name)?, pool, into),
        Entry::Text(text) => put_one(CONSTANT_STRING, &Entry::Utf8(text.clone()?), pool, into),
        Entry::Field(class, name, descriptor) => {
            put_member(CONSTANT_FIELDREF, class, name, descriptor, pool, into)
        }
        Entry::Method(class, name, descriptor) => {
            put_member(CONSTANT_METHODREF, class, name, descriptor, pool, into)
        }
        Entry::InterfaceMethod(class, name, descriptor) => {
            put_member(
                CONSTANT_INTERFACE_METHODREF,
                class,
                name,
                descriptor,
                pool,
                into,
            )
        }
        Entry::NameAndType(name, descriptor) => {
            put_name_and_type(name, descriptor, pool, alloc, into)
        }
    }
}

/// Appends a text behind its tag and its length.
fn put_text(text: &Text16, alloc: Global, into: &mut Vec<u8>) -> Result<(), NoMemory>
    requires { length (modified text.now) < 2 ^ 16 }
    ensures { OnOk result (into.new.items ≡ into.old.items ++ 1
        ∷ (to_be_bytes w16 (length (modified text.now)) ++ modified text.now) ++ []) }
{
    let mut bytes = Vec::new(alloc);
    put_modified(text, &mut bytes)?;
    into.push(CONSTANT_UTF8)?;
    into.extend_from_slice(&(bytes.len() as u16).to_be_bytes())?;
    into.extend_from_slice(bytes.as_slice())?;
    Ok(())
}

/// Appends a number behind its tag.
fn put_number(tag: u8, number: &[u8], into: &mut Vec<u8>) -> Result<(), NoMemory>
    ensures { OnOk result (into.new.items ≡ into.old.items ++ tag ∷ number.now ++ []) }
{
    into.push(tag)?;
    into.extend_from_slice(number)?;
    Ok(())
}

/// Appends the index of one part behind a tag.
fn put_one(tag: u8, part: &Entry, pool: &Pool, into: &mut Vec<u8>) -> Result<(), NoMemory>
    requires { has pool.now part.now ≡ true }
    ensures { OnOk result (into.new.items ≡ into.old.items
        ++ tag ∷ flat_map (λ p. to_be_bytes w16 (index pool.now p)) (part.now ∷ [])) }
{
    into.push(tag)?;
    put_index(part, pool, into)
}

/// Appends the indices of two parts behind a tag.
fn put_two(
    tag: u8,
    first: &Entry,
    second: &Entry,
    pool: &Pool,
    into: &mut Vec<u8>,
) -> Result<(), NoMemory>
    requires first { has pool.now first.now ≡ true }
    requires second { has pool.now second.now ≡ true }
    ensures { OnOk result (into.new.items ≡ into.old.items
        ++ tag ∷ flat_map (λ p. to_be_bytes w16 (index pool.now p)) (first.now ∷ second.now ∷ [])) }
{
    into.push(tag)?;
    put_index(first, pool, into)?;
    put_index(second, pool, into)
}

/// Appends a field or a method: a tag, and the indices of the class and of the name with its descriptor.
fn put_member(
    tag: u8,
    class: &Name,
    name: &Name,
    descriptor: &Name,
    pool: &Pool,
    into: &mut Vec<u8>,
) -> Result<(), NoMemory>
    requires class { has pool.now (entry.Class class.now) ≡ true }
    requires pair { has pool.now (entry.NameAndType name.now descriptor.now) ≡ true }
    ensures { OnOk result (into.new.items ≡ into.old.items
        ++ tag ∷ flat_map (λ p. to_be_bytes w16 (index pool.now p))
        (entry.Class class.now ∷ entry.NameAndType name.now descriptor.now ∷ [])) }
{
    let class = Entry::Class(class.clone()?);
    let pair = Entry::NameAndType(name.clone()?, descriptor.clone()?);
    put_two(tag, &class, &pair, pool, into)
}

/// Appends a name and a descriptor: the tag, and the indices of the two texts.
fn put_name_and_type(
    name: &Name,
    descriptor: &Name,
    pool: &Pool,
    alloc: Global,
    into: &mut Vec<u8>,
) -> Result<(), NoMemory>
    requires name { has pool.now (entry.Utf8 name.now) ≡ true }
    requires descriptor { has pool.now (entry.Utf8 descriptor.now) ≡ true }
    ensures { OnOk result (into.new.items ≡ into.old.items
        ++ 12 ∷ flat_map (λ p. to_be_bytes w16 (index pool.now p))
        (entry.Utf8 name.now ∷ entry.Utf8 descriptor.now ∷ [])) }
{
    let first = text_of(alloc, name)?;
    let second = text_of(alloc, descriptor)?;
    put_two(CONSTANT_NAME_AND_TYPE, &first, &second, pool, into)
}

/// Appends the index of an entry that is there.
fn put_index(e: &Entry, pool: &Pool, into: &mut Vec<u8>) -> Result<(), NoMemory>
    requires { has pool.now e.now ≡ true }
    ensures { OnOk result (into.new.items ≡ into.old.items ++ to_be_bytes w16 (index pool.now e.now)) }
{
    let index = pool.index_of(e).unwrap();
    into.extend_from_slice(&index.to_be_bytes())?;
    Ok(())
}

/// The text of a name.
fn text_of(alloc: Global, name: &Name) -> Result<Entry, NoMemory>
    ensures { IfOk result (λ e. e ≡ entry.Utf8 name.now) }
{
    let bytes = name.as_bytes();
    let mut units = Vec::with_capacity(alloc, bytes.len())?;
    for byte in bytes {
        units.push(u16::from(*byte))?;
    }
    Ok(Entry::Utf8(Text16::from_units(units)))
}
