//! What the entries stand for.

ghost use Rattle.jvm_pool_bytes.specs.Names.{is_ascii};
ghost use Rattle.jvm_pool_bytes.specs.Raws as standing;
ghost use Rattle.jvm_pool_bytes.specs.Raws.{entry_of};
ghost use Rattle.jvm_pool_bytes.specs.Reading as reading;
ghost use Rattle.jvm_pool_bytes.specs.Reading.{raws_of};
ghost use Rattle.jvm_pool_bytes.specs.Spelling.{IsPool};
ghost use Rattle.jvm_pool_reader.specs.JudgedSoFar.{HasNames, HaveNames};
ghost use Rattle.std.specs.Prelude.{◌≡◌, true, IfOk};

use crate::raws::Raws;
use crate::texts::name_of;
use jvm_pool::{Entry, Pool};
use jvm_pool_bytes::raws::RawEntry;
use kt_base::{Name, NoMemory, Text16};
use std::alloc::Global;

/// The text at an index, empty where none stands there.
fn text_at(raws: &Raws, index: u16) -> &[u16]
    ensures { result.now ≡ standing.text_at (raws_of raws.now) index }
{
    match raws.get(index) {
        Some(RawEntry::Utf8(text)) => text.units(),
        _ => &[],
    }
}

/// The name of the class at an index.
fn class_at(raws: &Raws, index: u16) -> &[u16]
    ensures { result.now ≡ standing.class_at (raws_of raws.now) index }
{
    match raws.get(index) {
        Some(RawEntry::Class(name)) => text_at(raws, *name),
        _ => &[],
    }
}

/// The name of the name with a descriptor at an index.
fn name_at(raws: &Raws, index: u16) -> &[u16]
    ensures { result.now ≡ standing.name_at (raws_of raws.now) index }
{
    match raws.get(index) {
        Some(RawEntry::NameAndType(name, _)) => text_at(raws, *name),
        _ => &[],
    }
}

/// The descriptor of the name with a descriptor at an index.
fn descriptor_at(raws: &Raws, index: u16) -> &[u16]
    ensures { result.now ≡ standing.descriptor_at (raws_of raws.now) index }
{
    match raws.get(index) {
        Some(RawEntry::NameAndType(_, descriptor)) => text_at(raws, *descriptor),
        _ => &[],
    }
}

/// Two names.
fn two_names(alloc: Global, first: &[u16], second: &[u16]) -> Result<(Name, Name), NoMemory>
    requires first { is_ascii first.now ≡ true }
    requires second { is_ascii second.now ≡ true }
    ensures first { IfOk result (λ names. names.0 ≡ first.now) }
    ensures second { IfOk result (λ names. names.1 ≡ second.now) }
{
    let one = name_of(alloc, first)?;
    let other = name_of(alloc, second)?;
    Ok((one, other))
}

/// The class, the name and the descriptor of a member.
fn member(raws: &Raws, alloc: Global, class: u16, pair: u16) -> Result<(Name, Name, Name), NoMemory>
    requires class { is_ascii (standing.class_at (raws_of raws.now) class) ≡ true }
    requires name { is_ascii (standing.name_at (raws_of raws.now) pair) ≡ true }
    requires descriptor { is_ascii (standing.descriptor_at (raws_of raws.now) pair) ≡ true }
    ensures class { IfOk result (λ names. names.0 ≡ standing.class_at (raws_of raws.now) class) }
    ensures name { IfOk result (λ names. names.1 ≡ standing.name_at (raws_of raws.now) pair) }
    ensures descriptor { IfOk result (λ names. names.2 ≡ standing.descriptor_at (raws_of raws.now) pair) }
{
    let class = name_of(alloc, class_at(raws, class))?;
    let name = name_of(alloc, name_at(raws, pair))?;
    let descriptor = name_of(alloc, descriptor_at(raws, pair))?;
    Ok((class, name, descriptor))
}

/// A text of these units.
fn text_of(alloc: Global, units: &[u16]) -> Result<Text16, NoMemory>
    ensures { IfOk result (λ text. text ≡ units.now) }
{
    Ok(Text16::from_units(Vec::from_slice(alloc, units)?))
}

/// What an entry stands for: its parts by content.
pub fn entry(raws: &Raws, alloc: Global, raw: &RawEntry) -> Result<Entry, NoMemory>
    requires { HasNames (entry_of (raws_of raws.now) raw.now) }
    ensures { IfOk result (λ e. e ≡ entry_of (raws_of raws.now) raw.now) }
{
    match raw {
        RawEntry::Utf8(text) => Ok(Entry::Utf8(text.clone()?)),
        RawEntry::Int(number) => Ok(Entry::Int(*number)),
        RawEntry::Long(number) => Ok(Entry::Long(*number)),
        RawEntry::Class(name) => Ok(Entry::Class(name_of(alloc, text_at(raws, *name))?)),
        RawEntry::Text(text) => Ok(Entry::Text(text_of(alloc, text_at(raws, *text))?)),
        RawEntry::Field(class, pair) => {
            let (class, name, descriptor) = member(raws, alloc, *class, *pair)?;
            Ok(Entry::Field(class, name, descriptor))
        }
        RawEntry::Method(class, pair) => {
            let (class, name, descriptor) = member(raws, alloc, *class, *pair)?;
            Ok(Entry::Method(class, name, descriptor))
        }
        RawEntry::InterfaceMethod(class, pair) => {
            let (class, name, descriptor) = member(raws, alloc, *class, *pair)?;
            Ok(Entry::InterfaceMethod(class, name, descriptor))
        }
        RawEntry::NameAndType(name, descriptor) => {
            let (name, descriptor) = two_names(
                alloc,
                text_at(raws, *name),
                text_at(raws, *descriptor),
            )?;
            Ok(Entry::NameAndType(name, descriptor))
        }
    }
}

/// What the entries stand for, in order.
fn entries_of(raws: &Raws, alloc: Global) -> Result<Vec<Entry>, NoMemory>
    requires { HaveNames (raws_of raws.now) }
    ensures { IfOk result (λ entries. entries.items ≡ reading.entries_of (raws_of raws.now)) }
{
    let mut entries = Vec::with_capacity(alloc, raws.len())?;
    for raw in raws.entries() {
        entries.push(entry(raws, alloc, raw)?)?;
    }
    Ok(entries)
}

/// The pool that the entries stand for.
pub fn pool_of(raws: &Raws, alloc: Global) -> Result<Pool, NoMemory>
    requires { IsPool (reading.entries_of (raws_of raws.now)) }
    ensures { IfOk result (λ pool. pool ≡ reading.entries_of (raws_of raws.now)) }
{
    let entries = entries_of(raws, alloc)?;
    Pool::of_entries(alloc, entries)
}
