//! The type at the front of a descriptor, by reference (JVMS SE 8 §4.3.2).

ghost use Rattle.jvm_class_start.specs.Arguments.{type_seen, IsAsciiType};
ghost use Rattle.jvm_pool.specs.DescriptorReading as reading;
ghost use Rattle.jvm_pool.specs.Descriptors as descriptors;
ghost use Rattle.jvm_pool.specs.Descriptors.{is_name_byte};
ghost use Rattle.std.specs.List.{list_all, slice_split};
ghost use Rattle.std.specs.Str.{IsAscii};
ghost use Rattle.std.specs.Prelude.{◌≡◌, ◌==◌, ◌<◌, length, nat_lt, option_map, position, IfSome};

/// A type in a descriptor, which has the name of its class by reference. It takes no memory.
#[derive(Clone, Copy, Debug)]
pub enum ArgumentType<'a> {
    Int,
    Long,
    Bool,
    Char,
    /// A class, by the internal form of its name.
    Class(&'a [u8]),
    /// `[I`.
    IntArray,
    /// `[Ljava/lang/Object;`.
    ObjectArray,
}

/// The type at the front, and the bytes behind it: `None` exactly where no type is there.
pub fn first_type<'a>(bytes: &'a [u8]) -> Option<(ArgumentType<'a>, &'a [u8])>
    ensures value { option_map (λ x. (type_seen x.0, x.1.now)) result ≡ reading.first_type bytes.now }
    ensures ascii { IsAscii bytes.now → IfSome result (λ x. IsAsciiType x.0) }
{
    match bytes {
        [b'L', rest @ ..] => class_type(rest),
        [b'[', rest @ ..] => array_type(rest),
        [letter, rest @ ..] => letter_type(*letter, rest),
        [] => None,
    }
}

/// The class type whose `L` stands before these bytes.
fn class_type<'a>(bytes: &'a [u8]) -> Option<(ArgumentType<'a>, &'a [u8])>
    ensures value { option_map (λ x. (type_seen x.0, x.1.now)) result
        ≡ reading.class_type (reading.first_class bytes.now) }
    ensures ascii { IsAscii bytes.now → IfSome result (λ x. IsAsciiType x.0) }
{
    let end = end_of_class(bytes)?;
    let name = &bytes[..end];
    let (_, rest) = bytes.split_at(end + 1);
    if is_class_name(name) {
        Some((ArgumentType::Class(name), rest))
    } else {
        None
    }
}

/// Where the first `;` is.
fn end_of_class(bytes: &[u8]) -> Option<usize>
    ensures value { result ≡ position (λ b. b == 59) bytes.now }
    ensures within { IfSome result (λ end. end < length bytes.now) }
{
    bytes.iter().position(|b| *b == b';')
}

/// Whether these bytes are the internal form of a class name (§4.2.1).
fn is_class_name(name: &[u8]) -> bool
    ensures { result ≡ descriptors.is_class_name name.now }
{
    has_only_name_bytes(name) && has_no_empty_part(name)
}

fn has_only_name_bytes(name: &[u8]) -> bool
    ensures { result ≡ list_all is_name_byte name.now }
{
    name.iter().all(|b| is_name_byte(*b))
}

fn is_name_byte(b: u8) -> bool
    ensures { result ≡ is_name_byte b }
{
    !matches!(b, b'.' | b';' | b'[')
}

fn has_no_empty_part(name: &[u8]) -> bool
    ensures { result ≡ list_all (λ part. nat_lt 0 (length part)) (slice_split (λ b. b == 47) name.now) }
{
    name.split(|b| *b == b'/').all(|part| !part.is_empty())
}

/// The array type whose `[` stands before these bytes.
fn array_type<'a>(bytes: &'a [u8]) -> Option<(ArgumentType<'a>, &'a [u8])>
    ensures value { option_map (λ x. (type_seen x.0, x.1.now)) result ≡ reading.first_array bytes.now }
    ensures ascii { IfSome result (λ x. IsAsciiType x.0) }
{
    if let Some(rest) = behind_prefix(bytes, b"I") {
        return Some((ArgumentType::IntArray, rest));
    }
    match behind_prefix(bytes, b"Ljava/lang/Object;") {
        Some(rest) => Some((ArgumentType::ObjectArray, rest)),
        None => None,
    }
}

/// What stands behind a prefix that the bytes begin with.
fn behind_prefix<'a>(bytes: &'a [u8], prefix: &[u8]) -> Option<&'a [u8]>
    ensures { option_map (λ rest. rest.now) result ≡ reading.behind_prefix prefix.now bytes.now }
{
    bytes.strip_prefix(prefix)
}

/// The type of one letter, and the bytes behind it.
fn letter_type(letter: u8, rest: &[u8]) -> Option<(ArgumentType<'_>, &[u8])>
    ensures value { option_map (λ x. (type_seen x.0, x.1.now)) result
        ≡ reading.with_rest rest.now (reading.base_type letter) }
    ensures ascii { IfSome result (λ x. IsAsciiType x.0) }
{
    match letter {
        b'I' => Some((ArgumentType::Int, rest)),
        b'J' => Some((ArgumentType::Long, rest)),
        b'Z' => Some((ArgumentType::Bool, rest)),
        b'C' => Some((ArgumentType::Char, rest)),
        _ => None,
    }
}
