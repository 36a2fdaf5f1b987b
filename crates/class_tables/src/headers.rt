//! Methods by their places.

ghost use Rattle.class_tables.specs.Dispatch.{header_of, is_selectable, methods_at};
ghost use Rattle.std.specs.Prelude.{◌≡◌, IfOk, option_copied, option_map, reverse};

use class_headers::MethodHeader;
use class_headers::places::is_called_with_object;
use class_linked::MethodPlace;
use class_members::Hierarchy;
use jvm_class_types::MethodFlags;
use kt_base::NoMemory;
use sqlite_items::at;
use std::alloc::Global;

/// The methods that a class declares.
pub(crate) fn methods_at(h: &Hierarchy, class: usize) -> &[MethodHeader]
    ensures { result.now ≡ methods_at h.now class }
{
    match at(h.headers.as_slice(), class) {
        None => &[],
        Some(header) => header.methods.as_slice(),
    }
}

/// The method at a place.
pub(crate) fn header_of(h: &Hierarchy, slot: MethodPlace) -> Option<&MethodHeader>
    ensures { option_copied result ≡ header_of h.now slot }
{
    at(methods_at(h, slot.class), slot.place)
}

/// Whether a method is found in the class of the receiver.
pub(crate) fn is_selectable(flags: MethodFlags, name: &[u8]) -> bool
    ensures { result ≡ is_selectable flags name.now }
{
    is_called_with_object(flags) && name != b"<init>".as_slice()
}

/// The last first.
pub(crate) fn reversed(alloc: Global, classes: &[usize]) -> Result<Vec<usize>, NoMemory>
    ensures { IfOk result (λ made. made.items ≡ reverse classes.now) }
{
    let mut made = Vec::from_slice(alloc, classes)?;
    made.as_mut_slice().reverse();
    Ok(made)
}
