//! Whether the entries of a pool keep their rules (JVMS SE 8 §4.4). No call here takes memory.

ghost use Rattle.jvm_pool.specs.Modified.{IsText};
ghost use Rattle.jvm_pool.specs.declared.entries.Entry.TheVariants as entry;
ghost use Rattle.jvm_pool_bytes.specs.Spelling.{AreEntries, IsEntry};
ghost use Rattle.std.specs.Int.{w32, w64};
ghost use Rattle.std.specs.Prelude.{◌↔◌, FitsSigned, IsTrue};

use crate::texts::{is_field, is_method, is_name, is_short};
use jvm_pool::Entry;
use kt_base::Name;

/// Units are those of UTF-16.
fn are_units(units: &[u16])
    ensures { IsText units.now }
{}

/// A number of four bytes is one.
fn fits_int(number: i32)
    ensures { FitsSigned w32 number }
{}

/// A number of eight bytes is one.
fn fits_long(number: i64)
    ensures { FitsSigned w64 number }
{}

/// Whether a name with its descriptor may stand in a pool.
fn is_pair(name: &Name, descriptor: &Name) -> bool
    ensures { IsTrue result ↔ IsEntry (entry.NameAndType name.now descriptor.now) }
{
    is_name(name) && (is_field(descriptor) || is_method(descriptor))
}

/// Whether an entry keeps its rule: the length of a text fits two bytes, names are not empty, and descriptors are of the
/// kind.
pub fn is_entry(e: &Entry) -> bool
    ensures { IsTrue result ↔ IsEntry e.now }
{
    match e {
        Entry::Utf8(text) => {
            let units = text.units();
            are_units(units);
            is_short(units)
        }
        Entry::Int(number) => {
            fits_int(*number);
            true
        }
        Entry::Long(number) => {
            fits_long(*number);
            true
        }
        Entry::Class(name) => is_name(name),
        Entry::Text(_) => true,
        Entry::Field(_, _, descriptor) => is_field(descriptor),
        Entry::Method(_, _, descriptor) | Entry::InterfaceMethod(_, _, descriptor) => {
            is_method(descriptor)
        }
        Entry::NameAndType(name, descriptor) => is_pair(name, descriptor),
    }
}

/// Whether each entry keeps its rule.
pub fn are_entries(entries: &[Entry]) -> bool
    ensures { IsTrue result ↔ AreEntries entries.now }
{
    for e in entries {
        if !is_entry(e) {
            return false;
        }
    }
    true
}
