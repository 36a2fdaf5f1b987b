//! Entries of a constant pool as they stand in a file (JVMS SE 8 §4.4).

ghost use Rattle.jvm_class_formats.specs.Formats.{moved_to, Spot};
ghost use Rattle.jvm_class_formats.specs.Reads.{Reads};
ghost use Rattle.jvm_pool_bytes.specs.Reading as reading;
ghost use Rattle.jvm_pool_bytes.specs.Reading.{tagged, two, unplaced, HasTwo};
ghost use Rattle.jvm_pool_bytes.specs.declared.raws.RawEntry.{RawEntry};
ghost use Rattle.std.specs.Prelude.{◌≡◌, ℕ, Result};

use crate::raws::RawEntry;
use crate::tags::Tag;
use jvm_class_formats::numbers::{byte, half, long, word};
use jvm_class_formats::{Place, ReadErr};
use jvm_pool::{ModifiedErr, read_modified};
use kt_base::Text16;
use std::alloc::Global;

/// A text of so many bytes. Refused at its start where they spell none.
fn chars(alloc: Global, count: u16, place: Place<'_>) -> Result<(Text16, Place<'_>), ReadErr>
    ensures { Reads (λ x. (x.0, x.1)) result ((reading.chars count).read place.entry) }
{
    if place.bytes.len() < count as usize {
        return Err(ReadErr::BadBytes {
            offset: place.total as u64,
        });
    }
    let at = place.offset();
    let (front, bytes) = place.bytes.split_at(count as usize);
    match read_modified(alloc, front) {
        Ok(text) => Ok((
            text,
            Place {
                total: place.total,
                counter: place.counter,
                bytes,
            },
        )),
        Err(ModifiedErr::Bad) => Err(ReadErr::BadBytes { offset: at }),
        Err(ModifiedErr::NoMemory) => Err(ReadErr::NoMemory),
    }
}

/// A text behind its length.
fn text(alloc: Global, place: Place<'_>) -> Result<(Text16, Place<'_>), ReadErr>
    ensures { Reads (λ x. (x.0, x.1)) result (reading.text.read place.entry) }
{
    let (count, place) = half(place)?;
    chars(alloc, count, place)
}

/// Two indices.
fn two(place: Place<'_>) -> Result<((u16, u16), Place<'_>), ReadErr>
    ensures { Reads (λ x. (x.0, x.1)) result (two.read place.entry) }
{
    let (first, place) = half(place)?;
    let (second, place) = half(place)?;
    Ok(((first, second), place))
}

/// What stands behind a tag.
fn behind_tag(alloc: Global, tag: Tag, place: Place<'_>) -> Result<(RawEntry, Place<'_>), ReadErr>
    ensures { Reads (λ x. (x.0, x.1)) result ((tagged tag).read place.entry) }
{
    match tag {
        Tag::Utf8 => {
            let (text, place) = text(alloc, place)?;
            Ok((RawEntry::Utf8(text), place))
        }
        Tag::Integer => {
            let (number, place) = word(place)?;
            Ok((RawEntry::Int(number.cast_signed()), place))
        }
        Tag::Long => {
            let (number, place) = long(place)?;
            Ok((RawEntry::Long(number.cast_signed()), place))
        }
        Tag::Class => {
            let (name, place) = half(place)?;
            Ok((RawEntry::Class(name), place))
        }
        Tag::Text => {
            let (text, place) = half(place)?;
            Ok((RawEntry::Text(text), place))
        }
        Tag::Field | Tag::Method | Tag::InterfaceMethod | Tag::NameAndType => pair(tag, place),
    }
}

/// The two indices behind a tag that has two.
fn pair(tag: Tag, place: Place<'_>) -> Result<(RawEntry, Place<'_>), ReadErr>
    requires { HasTwo tag }
    ensures { Reads (λ x. (x.0, x.1)) result ((tagged tag).read place.entry) }
{
    let ((first, second), place) = two(place)?;
    match tag {
        Tag::Field => Ok((RawEntry::Field(first, second), place)),
        Tag::Method => Ok((RawEntry::Method(first, second), place)),
        Tag::InterfaceMethod => Ok((RawEntry::InterfaceMethod(first, second), place)),
        Tag::NameAndType => Ok((RawEntry::NameAndType(first, second), place)),
        Tag::Utf8 | Tag::Integer | Tag::Long | Tag::Class | Tag::Text => unreachable!(),
    }
}

/// What was read of an item that starts there: where it breaks a rule within, it is refused at its start.
fn as_item<'a>(
    start: u64,
    total: u64,
    outcome: Result<(RawEntry, Place<'a>), ReadErr>,
) -> Result<(RawEntry, Place<'a>), ReadErr>
    ensures { (read : Result (RawEntry × Spot) ℕ) → Reads (λ x. (x.0, x.1)) outcome.entry read
        → Reads (λ x. (x.0, x.1)) result (moved_to start total read) }
{
    match outcome {
        Ok(read) => Ok(read),
        Err(ReadErr::BadBytes { offset }) => {
            if offset == total {
                Err(ReadErr::BadBytes { offset: total })
            } else {
                Err(ReadErr::BadBytes { offset: start })
            }
        }
        Err(ReadErr::NoMemory) => Err(ReadErr::NoMemory),
    }
}

/// A tag that is one, and what stands behind it.
fn tag_and_rest(alloc: Global, place: Place<'_>) -> Result<(RawEntry, Place<'_>), ReadErr>
    ensures { Reads (λ x. (x.0, x.1)) result (unplaced.read place.entry) }
{
    let at = place.offset();
    let (number, place) = byte(place)?;
    match Tag::of_number(number) {
        Some(tag) => behind_tag(alloc, tag, place),
        None => Err(ReadErr::BadBytes { offset: at }),
    }
}

/// An entry as it stands in the file. Refused at its start where it is none, and at the file's length where that ends
/// within it.
pub fn raw_entry(alloc: Global, place: Place<'_>) -> Result<(RawEntry, Place<'_>), ReadErr>
    ensures { Reads (λ x. (x.0, x.1)) result (reading.raw_entry.read place.entry) }
{
    let start = place.offset();
    let total = place.total as u64;
    as_item(start, total, tag_and_rest(alloc, place))
}
