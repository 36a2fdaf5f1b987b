//! Names and descriptors among texts (JVMS SE 8 §4.2, §4.3).

ghost use Rattle.jvm_pool_bytes.specs.Names as names;
ghost use Rattle.jvm_pool_reader.specs.DescriptorKind.{is_descriptor};
ghost use Rattle.std.specs.Prelude.{◌≡◌, true, IfOk};

use jvm_pool::{is_field_descriptor, is_method_descriptor};
use kt_base::{Name, NoMemory};
use std::alloc::Global;

/// What a descriptor describes.
#[derive(Clone, Copy, Debug, PartialEq, Eq)]
pub enum Kind {
    /// A field (§4.3.2).
    Field,
    /// A method (§4.3.3).
    Method,
}

/// Whether each unit is ASCII.
fn is_ascii(units: &[u16]) -> bool
    ensures { result ≡ names.is_ascii units.now }
{
    units.iter().all(|unit| *unit < 128)
}

/// Whether a text is a name: not empty, and ASCII.
pub fn is_name(units: &[u16]) -> bool
    ensures { result ≡ names.is_name units.now }
{
    !units.is_empty() && is_ascii(units)
}

/// The name of these units, which are ASCII.
pub fn name_of(alloc: Global, units: &[u16]) -> Result<Name, NoMemory>
    requires { names.is_ascii units.now ≡ true }
    ensures { IfOk result (λ name. name ≡ units.now) }
{
    let mut bytes = Vec::with_capacity(alloc, units.len())?;
    for unit in units {
        bytes.push(*unit as u8)?;
    }
    Name::of(alloc, bytes.as_slice())
}

/// Whether a text is a descriptor of the kind.
pub fn is_of(kind: Kind, alloc: Global, units: &[u16]) -> Result<bool, NoMemory>
    ensures { IfOk result (λ is. is ≡ is_descriptor kind units.now) }
{
    if is_ascii(units) {
        return is_of_ascii(kind, alloc, units);
    }
    Ok(false)
}

/// Whether an ASCII text is a descriptor of the kind.
fn is_of_ascii(kind: Kind, alloc: Global, units: &[u16]) -> Result<bool, NoMemory>
    requires { names.is_ascii units.now ≡ true }
    ensures { IfOk result (λ is. is ≡ is_descriptor kind units.now) }
{
    let name = name_of(alloc, units)?;
    match kind {
        Kind::Field => Ok(is_field_descriptor(&name)),
        Kind::Method => Ok(is_method_descriptor(&name)),
    }
}
