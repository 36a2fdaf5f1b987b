//! Whether the parts of an entry are of their kinds.

ghost use Rattle.jvm_pool_bytes.specs.Names as names;
ghost use Rattle.jvm_pool_bytes.specs.Names.{is_field_descriptor, is_method_descriptor};
ghost use Rattle.jvm_pool_bytes.specs.Raws.{raw_at, raw_units};
ghost use Rattle.jvm_pool_bytes.specs.Reading as reading;
ghost use Rattle.jvm_pool_bytes.specs.Reading.{is_class, is_pair, is_text, raws_of, text_keeps};
ghost use Rattle.jvm_pool_reader.specs.DescriptorKind.{is_descriptor};
ghost use Rattle.std.specs.Prelude.{◌≡◌, ◌+◌, ◌&&◌, ◌||◌, nat_le, nat_lt, not, true, IfOk};

use crate::raws::Raws;
use crate::texts::{Kind, is_name, is_of};
use jvm_pool_bytes::raws::RawEntry;
use kt_base::NoMemory;
use std::alloc::Global;

/// Whether an index is one of an entry that wasn't read: it isn't judged.
fn is_unread(raws: &Raws, count: u32, index: u16) -> bool
    ensures { result ≡ (nat_le (1 + raw_units (raws_of raws.now)) index && nat_lt index count) }
{
    raws.next() <= u32::from(index) && u32::from(index) < count
}

/// Whether an index is that of a class.
fn names_class(raws: &Raws, count: u32, index: u16) -> bool
    ensures { result ≡ reading.names (raws_of raws.now) count (is_class (raws_of raws.now) count) index }
{
    match raws.get(index) {
        Some(RawEntry::Class(_)) => true,
        Some(_) => false,
        None => is_unread(raws, count, index),
    }
}

/// Whether an index is that of a text.
fn names_text(raws: &Raws, count: u32, index: u16) -> bool
    ensures { result
        ≡ reading.names (raws_of raws.now) count (is_text (raws_of raws.now) count (λ t. true)) index }
{
    match raws.get(index) {
        Some(RawEntry::Utf8(_)) => true,
        Some(_) => false,
        None => is_unread(raws, count, index),
    }
}

/// Whether an index is that of a name.
fn names_name(raws: &Raws, count: u32, index: u16) -> bool
    ensures { result
        ≡ reading.names (raws_of raws.now) count (is_text (raws_of raws.now) count names.is_name) index }
{
    match raws.get(index) {
        Some(RawEntry::Utf8(text)) => is_name(text.units()),
        Some(_) => false,
        None => is_unread(raws, count, index),
    }
}

/// Whether a text is the descriptor of a field or of a method.
fn is_either(alloc: Global, units: &[u16]) -> Result<bool, NoMemory>
    ensures { IfOk result (λ is. is ≡ (is_field_descriptor units.now || is_method_descriptor units.now)) }
{
    if is_of(Kind::Field, alloc, units)? {
        return Ok(true);
    }
    is_of(Kind::Method, alloc, units)
}

/// Whether an index is that of a descriptor.
fn names_descriptor(raws: &Raws, alloc: Global, count: u32, index: u16) -> Result<bool, NoMemory>
    ensures { IfOk result (λ is. is ≡ reading.names (raws_of raws.now) count
        (is_text (raws_of raws.now) count (λ t. is_field_descriptor t || is_method_descriptor t)) index) }
{
    match raws.get(index) {
        Some(RawEntry::Utf8(text)) => is_either(alloc, text.units()),
        Some(_) => Ok(false),
        None => Ok(is_unread(raws, count, index)),
    }
}

/// Whether the text at an index, where it was read, is no descriptor of the other kind.
fn keeps_kind(
    raws: &Raws,
    alloc: Global,
    count: u32,
    other: Kind,
    index: u16,
) -> Result<bool, NoMemory>
    ensures { IfOk result (λ is. is ≡ text_keeps (raws_of raws.now) count (λ t. not (is_descriptor other t))
        (raw_at 1 (raws_of raws.now) index)) }
{
    match raws.get(index) {
        Some(RawEntry::Utf8(text)) => {
            let is_other = is_of(other, alloc, text.units())?;
            Ok(!is_other)
        }
        _ => Ok(true),
    }
}

/// Whether an index is that of a name with a descriptor that isn't of the other kind.
fn names_pair(
    raws: &Raws,
    alloc: Global,
    count: u32,
    other: Kind,
    index: u16,
) -> Result<bool, NoMemory>
    ensures { IfOk result (λ is. is ≡ reading.names (raws_of raws.now) count
        (is_pair (raws_of raws.now) count (is_descriptor other)) index) }
{
    match raws.get(index) {
        Some(RawEntry::NameAndType(_, descriptor)) => {
            keeps_kind(raws, alloc, count, other, *descriptor)
        }
        Some(_) => Ok(false),
        None => Ok(is_unread(raws, count, index)),
    }
}

/// Whether the parts of a member of a class are of their kinds.
fn member_fits(
    raws: &Raws,
    alloc: Global,
    count: u32,
    other: Kind,
    class: u16,
    pair: u16,
) -> Result<bool, NoMemory>
    ensures { IfOk result (λ is. is
        ≡ (reading.names (raws_of raws.now) count (is_class (raws_of raws.now) count) class
        && reading.names (raws_of raws.now) count (is_pair (raws_of raws.now) count (is_descriptor other)) pair)) }
{
    if !names_class(raws, count, class) {
        return Ok(false);
    }
    names_pair(raws, alloc, count, other, pair)
}

/// Whether the parts of a name with its descriptor are of their kinds.
fn pair_fits(
    raws: &Raws,
    alloc: Global,
    count: u32,
    name: u16,
    descriptor: u16,
) -> Result<bool, NoMemory>
    ensures { IfOk result (λ is. is
        ≡ (reading.names (raws_of raws.now) count (is_text (raws_of raws.now) count names.is_name) name
        && reading.names (raws_of raws.now) count
        (is_text (raws_of raws.now) count (λ t. is_field_descriptor t || is_method_descriptor t)) descriptor)) }
{
    if !names_name(raws, count, name) {
        return Ok(false);
    }
    names_descriptor(raws, alloc, count, descriptor)
}

/// Whether the parts of an entry are of their kinds.
pub fn fits(raws: &Raws, alloc: Global, count: u32, raw: &RawEntry) -> Result<bool, NoMemory>
    ensures { IfOk result (λ is. is ≡ reading.fits (raws_of raws.now) count raw.now) }
{
    match raw {
        RawEntry::Utf8(_) | RawEntry::Int(_) | RawEntry::Long(_) => Ok(true),
        RawEntry::Class(name) => Ok(names_name(raws, count, *name)),
        RawEntry::Text(text) => Ok(names_text(raws, count, *text)),
        RawEntry::Field(class, pair) => {
            member_fits(raws, alloc, count, Kind::Method, *class, *pair)
        }
        RawEntry::Method(class, pair) | RawEntry::InterfaceMethod(class, pair) => {
            member_fits(raws, alloc, count, Kind::Field, *class, *pair)
        }
        RawEntry::NameAndType(name, descriptor) => {
            pair_fits(raws, alloc, count, *name, *descriptor)
        }
    }
}
