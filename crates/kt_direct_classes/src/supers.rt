//! Superclasses, properties and entries of classes.

ghost use Rattle.kt_meaning.specs.Classes as spec;
ghost use Rattle.kt_typed.specs.Headers.{property_form};
ghost use Rattle.kt_typed.specs.Units.{unit_form};
ghost use Rattle.kt_types_tree.specs.Hierarchy.{super_form};
ghost use Rattle.std.specs.Prelude.{◌≡◌, IfSome, find, map, not, option_map};
ghost use Rattle.std.specs.Str.{IsAscii};

use kt_typed::{DeclaredProperty, TypedUnit};
use kt_types_tree::{ClassKind, Supertype};
use sqlite_items::at;

/// Whether a row is an interface.
fn is_interface(unit: &TypedUnit, c: u32) -> bool
    ensures { result ≡ spec.is_interface (unit_form unit.now) c }
{
    match at(unit.headers.hierarchy.classes.as_slice(), c as usize) {
        Some(header) => is_interface_kind(header.kind),
        None => false,
    }
}

fn is_interface_kind(kind: ClassKind) -> bool
    ensures { result ≡ spec.is_interface_kind kind }
{
    match kind {
        ClassKind::Interface => true,
        ClassKind::Class | ClassKind::DataClass | ClassKind::Enum => false,
    }
}

/// The first that is no interface.
fn first_class(unit: &TypedUnit, supertypes: &[Supertype]) -> Option<u32>
    ensures { result ≡ option_map (λ s. s.class)
        (find (λ s. not (spec.is_interface (unit_form unit.now) s.class)) (map super_form supertypes.now)) }
{
    match supertypes {
        [] => None,
        [first, rest @ ..] => {
            if is_interface(unit, first.class) {
                first_class(unit, rest)
            } else {
                Some(first.class)
            }
        }
    }
}

/// The superclass of a class.
pub fn superclass_of(unit: &TypedUnit, c: u32) -> Option<u32>
    ensures { result ≡ spec.superclass_of (unit_form unit.now) c }
{
    first_class(unit, unit.headers.hierarchy.supertypes_of(c))
}

/// The properties that a class declares.
pub fn own_properties(unit: &TypedUnit, c: u32) -> &[DeclaredProperty]
    ensures { map property_form result.now ≡ spec.own_properties (unit_form unit.now) c }
{
    match at(unit.headers.classes.as_slice(), c as usize) {
        Some(class) => class.properties.as_slice(),
        None => &[],
    }
}

/// The name of an entry of an enum.
pub fn entry_name(unit: &TypedUnit, c: u32, ordinal: u32) -> Option<&[u8]>
    ensures value { option_map (λ name. name.now) result ≡ spec.entry_name (unit_form unit.now) c ordinal }
    ensures ascii { IfSome result (λ name. IsAscii name.now) }
{
    match at(unit.headers.classes.as_slice(), c as usize) {
        Some(class) => match at(class.entries.as_slice(), ordinal as usize) {
            Some(entry) => Some(entry.name.as_bytes()),
            None => None,
        },
        None => None,
    }
}
