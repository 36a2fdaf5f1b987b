//! The counter of first mentions after a mention (JVMS SE 8 §4.4). No call here takes memory.

ghost use Rattle.jvm_pool.specs.Entries.{behind, size};
ghost use Rattle.jvm_pool.specs.declared.entries.Entry.TheVariants as entry;
ghost use Rattle.jvm_pool.specs.Mentions.{count_each, count_mention, count_one};
ghost use Rattle.jvm_pool_judging.specs.Placing.{entry_sought, IsPlaced};
ghost use Rattle.std.specs.Prelude.{◌≡◌, ◌+◌, ◌<◌, ◌∷◌, [], Some};

use crate::sought::{Sought, index_of};
use jvm_pool::{Entry, Pool};

/// Whether an entry at an index is next: `None` exactly where it may not be mentioned here.
fn placed(index: Option<u16>, counter: u32) -> Option<bool>
    ensures { IsPlaced index counter result }
{
    let index = u32::from(index?);
    if index < counter {
        Some(false)
    } else if index == counter {
        Some(true)
    } else {
        None
    }
}

/// The counter after a mention of an entry without its parts.
fn alone(pool: &Pool, sought: Sought<'_>, counter: u32) -> Option<u32>
    ensures { result ≡ count_one pool.now (entry_sought sought.entry) (λ c. Some c) counter }
{
    match placed(index_of(pool, sought), counter) {
        None => None,
        Some(false) => Some(counter),
        Some(true) => Some(sought.next(counter)),
    }
}

/// The counter after a mention of two texts.
fn texts(pool: &Pool, first: &[u8], second: &[u8], counter: u32) -> Option<u32>
    ensures { result ≡ count_each pool.now (entry.Utf8 first.now ∷ entry.Utf8 second.now ∷ []) counter }
{
    let counter = alone(pool, Sought::Name(first), counter)?;
    alone(pool, Sought::Name(second), counter)
}

/// The counter after a mention of a name with its descriptor, and of the two texts.
fn pair(pool: &Pool, name: &[u8], descriptor: &[u8], counter: u32) -> Option<u32>
    ensures { result ≡ count_each pool.now (entry.NameAndType name.now descriptor.now
        ∷ entry.Utf8 name.now ∷ entry.Utf8 descriptor.now ∷ []) counter }
{
    let counter = alone(pool, Sought::Pair(name, descriptor), counter)?;
    texts(pool, name, descriptor, counter)
}

/// The counter after a mention of a class and of its name.
fn class_with_name(pool: &Pool, name: &[u8], counter: u32) -> Option<u32>
    ensures { result ≡ count_each pool.now (entry.Class name.now ∷ entry.Utf8 name.now ∷ []) counter }
{
    let counter = alone(pool, Sought::Class(name), counter)?;
    alone(pool, Sought::Name(name), counter)
}

/// The counter after a mention of the parts of a member of a class.
fn member(pool: &Pool, class: &[u8], name: &[u8], descriptor: &[u8], counter: u32) -> Option<u32>
    ensures { result ≡ count_each pool.now (behind (entry.Field class.now name.now descriptor.now)) counter }
{
    let counter = class_with_name(pool, class, counter)?;
    pair(pool, name, descriptor, counter)
}

/// The counter after a mention of each part of an entry, and behind each of them of its own parts.
fn parts(pool: &Pool, e: &Entry, counter: u32) -> Option<u32>
    ensures { result ≡ count_each pool.now (behind e.now) counter }
{
    match e {
        Entry::Utf8(_) | Entry::Int(_) | Entry::Long(_) => Some(counter),
        Entry::Class(name) => alone(pool, Sought::Name(name.as_bytes()), counter),
        Entry::Text(text) => alone(pool, Sought::Text(text.units()), counter),
        Entry::NameAndType(name, descriptor) => {
            texts(pool, name.as_bytes(), descriptor.as_bytes(), counter)
        }
        Entry::Field(class, name, descriptor)
        | Entry::Method(class, name, descriptor)
        | Entry::InterfaceMethod(class, name, descriptor) => {
            let class = class.as_bytes();
            member(pool, class, name.as_bytes(), descriptor.as_bytes(), counter)
        }
    }
}

/// The counter behind an entry.
fn behind_entry(e: &Entry, counter: u32) -> u32
    requires { counter < 65536 }
    ensures { result ≡ counter + size e.now }
{
    match e {
        Entry::Long(_) => counter + 2,
        _ => counter + 1,
    }
}

/// The counter after a mention of an entry: `None` exactly where it may not be mentioned here.
pub fn counted(pool: &Pool, e: &Entry, counter: u32) -> Option<u32>
    ensures { result ≡ count_mention pool.now e.now counter }
{
    match placed(pool.index_of(e), counter) {
        None => None,
        Some(false) => Some(counter),
        Some(true) => parts(pool, e, behind_entry(e, counter)),
    }
}

/// The counter after a mention of the text of a name.
pub fn counted_name(pool: &Pool, name: &[u8], counter: u32) -> Option<u32>
    ensures { result ≡ count_mention pool.now (entry.Utf8 name.now) counter }
{
    alone(pool, Sought::Name(name), counter)
}

/// The counter after a mention of a class.
pub fn counted_class(pool: &Pool, name: &[u8], counter: u32) -> Option<u32>
    ensures { result ≡ count_mention pool.now (entry.Class name.now) counter }
{
    match placed(index_of(pool, Sought::Class(name)), counter) {
        None => None,
        Some(false) => Some(counter),
        Some(true) => alone(pool, Sought::Name(name), counter + 1),
    }
}
