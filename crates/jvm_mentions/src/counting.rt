//! The counter of first mentions (JVMS SE 8 §4.4).
//!
//! A mention of an entry below the counter leaves the counter; one of the next entry moves it past that, and past each
//! of its parts that is new.

ghost use Rattle.jvm_mentions.specs.Placing.{IsPlaced};
ghost use Rattle.jvm_pool.specs.Entries.{behind, size};
ghost use Rattle.jvm_pool.specs.declared.entries.Entry.TheVariants as entry;
ghost use Rattle.jvm_pool.specs.Mentions.{count_each, count_mention, count_one, seek};
ghost use Rattle.std.specs.Prelude.{◌≡◌, ◌∷◌, [], Some, IfOk};

use jvm_pool::{Entry, Pool};
use kt_base::{Name, NoMemory, Text16};
use std::alloc::Global;

/// The counter after a mention of an entry alone, and whether the entry was next: `None` exactly where it may not be
/// mentioned here.
fn placed(pool: &Pool, e: &Entry, counter: u32) -> Option<(bool, u32)>
    ensures { IsPlaced (seek 1 pool.now e.now) (size e.now) counter result }
{
    let index = u32::from(pool.index_of(e)?);
    if index < counter {
        Some((false, counter))
    } else if index == counter {
        Some((true, counter + e.size()))
    } else {
        None
    }
}

/// The counter after a mention of an entry without its parts.
fn counted_alone(pool: &Pool, e: &Entry, counter: u32) -> Option<u32>
    ensures { result ≡ count_one pool.now e.now (λ c. Some c) counter }
{
    match placed(pool, e, counter) {
        None => None,
        Some((false, moved)) => Some(moved),
        Some((true, moved)) => Some(moved),
    }
}

/// The counter after a mention of the text of a name.
fn counted_text(
    pool: &Pool,
    alloc: Global,
    name: &Name,
    counter: u32,
) -> Result<Option<u32>, NoMemory>
    ensures { IfOk result (λ moved. moved ≡ count_one pool.now (entry.Utf8 name.now) (λ c. Some c) counter) }
{
    let text = text_of(alloc, name)?;
    Ok(counted_alone(pool, &text, counter))
}

/// The counter after a mention of two texts.
fn counted_texts(
    pool: &Pool,
    alloc: Global,
    first: &Name,
    second: &Name,
    counter: u32,
) -> Result<Option<u32>, NoMemory>
    ensures { IfOk result (λ moved. moved
        ≡ count_each pool.now (entry.Utf8 first.now ∷ entry.Utf8 second.now ∷ []) counter) }
{
    match counted_text(pool, alloc, first, counter)? {
        Some(moved) => counted_text(pool, alloc, second, moved),
        None => Ok(None),
    }
}

/// The counter after a mention of a name with its descriptor, and of the two texts.
fn counted_pair(
    pool: &Pool,
    alloc: Global,
    name: &Name,
    descriptor: &Name,
    counter: u32,
) -> Result<Option<u32>, NoMemory>
    ensures { IfOk result (λ moved. moved ≡ count_each pool.now (entry.NameAndType name.now descriptor.now
        ∷ entry.Utf8 name.now ∷ entry.Utf8 descriptor.now ∷ []) counter) }
{
    let pair = Entry::NameAndType(name.clone()?, descriptor.clone()?);
    match counted_alone(pool, &pair, counter) {
        Some(moved) => counted_texts(pool, alloc, name, descriptor, moved),
        None => Ok(None),
    }
}

/// The counter after a mention of a class and of its name.
fn counted_class(
    pool: &Pool,
    alloc: Global,
    name: &Name,
    counter: u32,
) -> Result<Option<u32>, NoMemory>
    ensures { IfOk result (λ moved. moved
        ≡ count_each pool.now (entry.Class name.now ∷ entry.Utf8 name.now ∷ []) counter) }
{
    let class = Entry::Class(name.clone()?);
    match counted_alone(pool, &class, counter) {
        Some(moved) => counted_text(pool, alloc, name, moved),
        None => Ok(None),
    }
}

/// The counter after a mention of the parts of a member of a class.
fn counted_member(
    pool: &Pool,
    alloc: Global,
    class: &Name,
    name: &Name,
    descriptor: &Name,
    counter: u32,
) -> Result<Option<u32>, NoMemory>
    ensures { IfOk result (λ moved. moved
        ≡ count_each pool.now (behind (entry.Field class.now name.now descriptor.now)) counter) }
{
    match counted_class(pool, alloc, class, counter)? {
        Some(moved) => counted_pair(pool, alloc, name, descriptor, moved),
        None => Ok(None),
    }
}

/// The counter after a mention of each part of an entry, and behind each of them of its own parts.
fn counted_parts(
    pool: &Pool,
    alloc: Global,
    e: &Entry,
    counter: u32,
) -> Result<Option<u32>, NoMemory>
    ensures { IfOk result (λ moved. moved ≡ count_each pool.now (behind e.now) counter) }
{
    match e {
        Entry::Utf8(_) | Entry::Int(_) | Entry::Long(_) => Ok(Some(counter)),
        Entry::Class(name) => counted_text(pool, alloc, name, counter),
        Entry::Text(text) => {
            let text = Entry::Utf8(text.clone()?);
            Ok(counted_alone(pool, &text, counter))
        }
        Entry::NameAndType(name, descriptor) => {
            counted_texts(pool, alloc, name, descriptor, counter)
        }
        Entry::Field(class, name, descriptor)
        | Entry::Method(class, name, descriptor)
        | Entry::InterfaceMethod(class, name, descriptor) => {
            counted_member(pool, alloc, class, name, descriptor, counter)
        }
    }
}

/// The counter after a mention of an entry: `None` exactly where it may not be mentioned here.
pub fn counted(pool: &Pool, alloc: Global, e: &Entry, counter: u32) -> Result<Option<u32>, NoMemory>
    ensures { IfOk result (λ moved. moved ≡ count_mention pool.now e.now counter) }
{
    match placed(pool, e, counter) {
        None => Ok(None),
        Some((false, moved)) => Ok(Some(moved)),
        Some((true, moved)) => counted_parts(pool, alloc, e, moved),
    }
}

/// The entry that is the text of a name.
pub fn text_of(alloc: Global, name: &Name) -> Result<Entry, NoMemory>
    ensures { IfOk result (λ e. e ≡ entry.Utf8 name.now) }
{
    let bytes = name.as_bytes();
    let mut units = Vec::with_capacity(alloc, bytes.len())?;
    for byte in bytes {
        units.push(u16::from(*byte))?;
    }
    Ok(Entry::Utf8(Text16::from_units(units)))
}
