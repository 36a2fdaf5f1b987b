//! Names and descriptors (JVMS SE 8 §4.2, §4.3), and texts that fit the pool (§4.4.7). No call here takes memory.

ghost use Rattle.jvm_pool.specs.Modified.{modified, unit_bytes};
ghost use Rattle.jvm_pool_bytes.specs.Names as names;
ghost use Rattle.std.specs.Prelude.{◌≡◌, ◌<◌, ◌≤◌, length, nat_lt};

use jvm_pool::{is_field_descriptor, is_method_descriptor};
use kt_base::Name;

/// Whether each byte is ASCII.
fn is_ascii(bytes: &[u8]) -> bool
    ensures { result ≡ names.is_ascii bytes.now }
{
    bytes.iter().all(|byte| *byte < 128)
}

/// Whether a text is a name: not empty, and ASCII.
pub fn is_name(name: &Name) -> bool
    ensures { result ≡ names.is_name name.now }
{
    let bytes = name.as_bytes();
    !bytes.is_empty() && is_ascii(bytes)
}

/// Whether a text is the descriptor of a field.
pub fn is_field(text: &Name) -> bool
    ensures { result ≡ names.is_field_descriptor text.now }
{
    if is_ascii(text.as_bytes()) {
        is_field_descriptor(text)
    } else {
        false
    }
}

/// Whether a text is the descriptor of a method.
pub fn is_method(text: &Name) -> bool
    ensures { result ≡ names.is_method_descriptor text.now }
{
    if is_ascii(text.as_bytes()) {
        is_method_descriptor(text)
    } else {
        false
    }
}

/// How many bytes a UTF-16 code unit has in modified UTF-8 (§4.4.7).
fn unit_length(unit: u16) -> u32
    ensures value { result ≡ length (unit_bytes unit) }
    ensures few { result ≤ 3 }
{
    if unit == 0 {
        2
    } else if unit < 0x80 {
        1
    } else if unit < 0x800 {
        2
    } else {
        3
    }
}

/// Whether code units have fewer than 65,536 bytes in modified UTF-8.
pub fn is_short(units: &[u16]) -> bool
    ensures { result ≡ nat_lt (length (modified units.now)) 65536 }
{
    let mut length = 0u32;
    for unit in units {
        length += unit_length(*unit);
        if 65535 < length {
            return false;
        }
    }
    true
}
