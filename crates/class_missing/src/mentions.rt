//! The members that the entries of a constant pool mean (JVMS SE 8 §5.4.3).

ghost use Rattle.class_missing.specs.Mentions.{field_named, interface_method_named, method_named};
ghost use Rattle.std.specs.Prelude.{◌≡◌};

use class_members::Hierarchy;
use kt_base::Name;

/// The class that declares the field of this name and descriptor that a class has, and its place there (§5.4.3.2).
pub fn named_field(
    h: &Hierarchy,
    class: &Name,
    name: &Name,
    descriptor: &Name,
) -> Option<(usize, usize)>
    ensures { result ≡ field_named h.now class.now name.now descriptor.now }
{
    match h.headers.number(class.as_bytes()) {
        None => None,
        Some(c) => h.field(c, name.as_bytes(), descriptor.as_bytes()),
    }
}

/// The same of a method of a class, which is no interface (§5.4.3.3).
pub fn named_method(
    h: &Hierarchy,
    class: &Name,
    name: &Name,
    descriptor: &Name,
) -> Option<(usize, usize)>
    ensures { result ≡ method_named h.now class.now name.now descriptor.now }
{
    match h.headers.number(class.as_bytes()) {
        None => None,
        Some(c) => {
            if h.is_interface(c) {
                None
            } else {
                h.method(c, name.as_bytes(), descriptor.as_bytes())
            }
        }
    }
}

/// The same of a method of an interface (§5.4.3.4).
pub fn named_interface_method(
    h: &Hierarchy,
    class: &Name,
    name: &Name,
    descriptor: &Name,
) -> Option<(usize, usize)>
    ensures { result ≡ interface_method_named h.now class.now name.now descriptor.now }
{
    match h.headers.number(class.as_bytes()) {
        None => None,
        Some(c) => {
            if h.is_interface(c) {
                h.interface_method(c, name.as_bytes(), descriptor.as_bytes())
            } else {
                None
            }
        }
    }
}
