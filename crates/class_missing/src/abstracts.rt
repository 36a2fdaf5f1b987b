//! Whether a class leaves an abstract function without a body (JVMS SE 8 §5.4.6).

ghost use Rattle.class_missing.specs.Missing.{has_body, is_abstract, is_concrete, lacks, lacks_body, lacks_one};
ghost use Rattle.class_missing.specs.Missing.{method_at, methods_of};
ghost use Rattle.class_members.specs.Members.{selected, supers_at};
ghost use Rattle.std.specs.List.{list_any};
ghost use Rattle.std.specs.Prelude.{◌≡◌, slice_get};

use class_headers::{Header, MethodHeader};
use class_members::Hierarchy;
use jvm_class_types::{ClassFlags, MethodFlags};
use sqlite_items::at;

fn is_concrete(flags: ClassFlags) -> bool
    ensures { result ≡ is_concrete flags }
{
    match flags {
        ClassFlags::Open | ClassFlags::Final => true,
        ClassFlags::Abstract | ClassFlags::Interface => false,
    }
}

fn is_abstract(flags: MethodFlags) -> bool
    ensures { result ≡ is_abstract flags }
{
    match flags {
        MethodFlags::Abstract => true,
        MethodFlags::Instance | MethodFlags::Static => false,
    }
}

fn methods_at(headers: &[Header], class: usize) -> &[MethodHeader]
    ensures { result.now ≡ methods_of (slice_get headers.now class) }
{
    match at(headers, class) {
        None => &[],
        Some(header) => header.methods.as_slice(),
    }
}

/// Whether what was found has a body.
fn found_has_body(h: &Hierarchy, found: Option<(usize, usize)>) -> bool
    ensures { result ≡ has_body (method_at h.now found) }
{
    match found {
        None => false,
        Some((class, place)) => match at(methods_at(h.headers.as_slice(), class), place) {
            None => false,
            Some(method) => !is_abstract(method.flags),
        },
    }
}

/// Whether what a call of a method runs on an object of a class has a body.
fn has_selected_body(h: &Hierarchy, class: usize, method: &MethodHeader) -> bool
    ensures { result ≡ has_body (method_at h.now (selected h.now class method.now.name method.now.descriptor)) }
{
    found_has_body(
        h,
        h.selected(class, method.name.as_slice(), method.descriptor.as_slice()),
    )
}

/// Whether a class has no body for a method that is abstract above it.
fn lacks_method(h: &Hierarchy, class: usize, method: &MethodHeader) -> bool
    ensures { result ≡ lacks h.now class method.now }
{
    is_abstract(method.flags) && !has_selected_body(h, class, method)
}

/// Whether a class has no body for one of the methods of a class above it.
fn lacks_method_of(h: &Hierarchy, class: usize, above: usize) -> bool
    ensures { result ≡ lacks_one h.now class above }
{
    for method in methods_at(h.headers.as_slice(), above) {
        if lacks_method(h, class, method) {
            return true;
        }
    }
    false
}

fn lacks_any(h: &Hierarchy, class: usize) -> bool
    ensures { result ≡ list_any (lacks_one h.now class) (supers_at h.now class) }
{
    for above in h.supers(class) {
        if lacks_method_of(h, class, *above) {
            return true;
        }
    }
    false
}

/// Whether a class that isn't abstract leaves an abstract function without a body.
pub(crate) fn lacks_body(h: &Hierarchy, class: usize, flags: ClassFlags) -> bool
    ensures { result ≡ lacks_body h.now class flags }
{
    is_concrete(flags) && lacks_any(h, class)
}
