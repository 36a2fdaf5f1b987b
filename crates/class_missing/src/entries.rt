//! What the entries of a constant pool name (JVMS SE 8 §4.4, §5.4.3).

ghost use Rattle.class_missing.specs.Missing.{entry_missing, first_in, member_missing};
ghost use Rattle.std.specs.Prelude.{◌≡◌, IfSome, find, is_some, option_map};
ghost use Rattle.std.specs.Str.{IsAscii};

use crate::descriptors::{missing_class, missing_type};
use crate::mentions::{named_field, named_interface_method, named_method};
use class_members::Hierarchy;
use jvm_pool::Entry;
use kt_base::Name;

/// Of a member its class, or a class in its descriptor, or the class in which it is missing.
fn missing_member<'a>(
    h: &Hierarchy,
    class: &'a Name,
    descriptor: &'a Name,
    found: Option<(usize, usize)>,
) -> Option<&'a [u8]>
    ensures value { option_map (λ n. n.now) result ≡ member_missing h.now class.now descriptor.now found }
    ensures ascii { IfSome result (λ n. IsAscii n.now) }
{
    match missing_class(h, class.as_bytes()) {
        Some(name) => Some(name),
        None => match missing_type(h, descriptor) {
            Some(name) => Some(name),
            None => match found {
                None => Some(class.as_bytes()),
                Some(_) => None,
            },
        },
    }
}

/// What an entry names that isn't there.
pub(crate) fn missing_of_entry<'a>(h: &Hierarchy, e: &'a Entry) -> Option<&'a [u8]>
    ensures value { option_map (λ n. n.now) result ≡ entry_missing h.now e.now }
    ensures ascii { IfSome result (λ n. IsAscii n.now) }
{
    match e {
        Entry::Utf8(_)
        | Entry::Int(_)
        | Entry::Long(_)
        | Entry::Text(_)
        | Entry::NameAndType(_, _) => None,
        Entry::Class(name) => missing_class(h, name.as_bytes()),
        Entry::Field(class, name, descriptor) => {
            missing_member(
                h,
                class,
                descriptor,
                named_field(h, class, name, descriptor),
            )
        }
        Entry::Method(class, name, descriptor) => {
            missing_member(
                h,
                class,
                descriptor,
                named_method(h, class, name, descriptor),
            )
        }
        Entry::InterfaceMethod(class, name, descriptor) => {
            missing_member(
                h,
                class,
                descriptor,
                named_interface_method(h, class, name, descriptor),
            )
        }
    }
}

fn entry_misses(h: &Hierarchy, e: &Entry) -> bool
    ensures { result ≡ is_some (entry_missing h.now e.now) }
{
    missing_of_entry(h, e).is_some()
}

fn first_entry<'a>(h: &Hierarchy, entries: &'a [Entry]) -> Option<&'a Entry>
    ensures { option_map (λ e. e.now) result ≡ find (λ e. is_some (entry_missing h.now e)) entries.now }
{
    entries.iter().find(|e| entry_misses(h, *e))
}

/// What the first entry names that names something that isn't there.
pub(crate) fn missing_of_entries<'a>(h: &Hierarchy, entries: &'a [Entry]) -> Option<&'a [u8]>
    ensures value { option_map (λ n. n.now) result ≡ first_in (entry_missing h.now) entries.now }
    ensures ascii { IfSome result (λ n. IsAscii n.now) }
{
    match first_entry(h, entries) {
        None => None,
        Some(e) => missing_of_entry(h, e),
    }
}
