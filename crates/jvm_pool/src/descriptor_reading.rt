//! Reading descriptors (JVMS SE 8 §4.3.2, §4.3.3).

ghost use Rattle.jvm_pool.specs.DescriptorReading as reading;
ghost use Rattle.jvm_pool.specs.DescriptorReading.{Answers, SpellsNone, begins_with};
ghost use Rattle.jvm_pool.specs.Descriptors.{is_class_name, is_name_byte, spelled, spelled_type, spelled_result, IsDescriptor, IsFieldType, IsResult};
ghost use Rattle.std.specs.Prelude.{◌≡◌, ◌==◌, ◌<◌, ◌++◌, ◌∷◌, ℕ, false, List, length, nat_lt, position, codes, All, option_map, IfSome, IfOk, IsTrue, Err, Option};
ghost use Rattle.jvm_pool.specs.declared.descriptors.FieldType.{FieldType};
ghost use Rattle.std.specs.List.{flat_map, list_all, slice_split};
ghost use Rattle.std.specs.Str.{IsAscii};

use crate::descriptors::{Descriptor, FieldType};
use crate::errors::DescriptorErr;
use kt_base::Name;
use std::alloc::Global;

/// The descriptor that this text spells: `Bad` exactly where it spells none.
///
/// The class names in it are internal forms (§4.2.1): identifiers with `/` between them, each of at least one byte,
/// without `.`, `;` and `[`.
pub fn read_descriptor(alloc: Global, text: &Name) -> Result<Descriptor, DescriptorErr>
    ensures found { IfOk result (λ found. IsDescriptor found × (text.now ≡ spelled found)) }
    ensures bad { result ≡ Err DescriptorErr.Bad → SpellsNone text.now }
{
    match text.as_bytes() {
        [b'(', rest @ ..] => method_descriptor(alloc, rest),
        bytes => field_descriptor(alloc, bytes),
    }
}

fn field_descriptor(alloc: Global, bytes: &[u8]) -> Result<Descriptor, DescriptorErr>
    requires ascii { IsAscii bytes.now }
    requires field { begins_with 40 bytes.now ≡ false }
    ensures found { IfOk result (λ found. IsDescriptor found × (bytes.now ≡ spelled found)) }
    ensures bad { result ≡ Err DescriptorErr.Bad → SpellsNone bytes.now }
{
    Ok(Descriptor::Field(only_type(alloc, bytes)?))
}

/// The method's descriptor whose `(` stands before these bytes.
fn method_descriptor(alloc: Global, bytes: &[u8]) -> Result<Descriptor, DescriptorErr>
    requires ascii { IsAscii bytes.now }
    ensures found { IfOk result (λ found. IsDescriptor found × (40 ∷ bytes.now ≡ spelled found)) }
    ensures bad { result ≡ Err DescriptorErr.Bad → SpellsNone (40 ∷ bytes.now) }
{
    let (parameters, rest) = parameters(alloc, bytes)?;
    let result = result_type(alloc, rest)?;
    Ok(Descriptor::Method(parameters, result))
}

/// The types before the first `)` that ends them, and the bytes behind it.
fn parameters(alloc: Global, bytes: &[u8]) -> Result<(Vec<FieldType>, &[u8]), DescriptorErr>
    requires ascii { IsAscii bytes.now }
    ensures found { IfOk result
        (λ found. All IsFieldType found.0.items
        × (bytes.now ≡ flat_map spelled_type found.0.items ++ codes ")" ++ found.1.now)) }
    ensures bad { result ≡ Err DescriptorErr.Bad → (types : List FieldType) (rest : List ℕ) → All IsFieldType types
        → bytes.now ≡ flat_map spelled_type types ++ codes ")" ++ rest → ⊥ }
    ensures ascii { IfOk result (λ found. IsAscii found.1.now) }
{
    let mut types = Vec::new(alloc);
    let mut rest = bytes;
    'types: while !is_closed(rest) {
        let (found, behind) = first_type(alloc, rest)?;
        types.push(found)?;
        rest = behind;
    }
    let (_, behind) = rest.split_at(1);
    Ok((types, behind))
}

/// Whether a `)` stands at the front.
pub(crate) fn is_closed(bytes: &[u8]) -> bool
    ensures value { result ≡ begins_with 41 bytes.now }
    ensures some { IsTrue result → 0 < length bytes.now }
{
    match bytes {
        [first, ..] => *first == b')',
        [] => false,
    }
}

/// The result that all these bytes spell.
fn result_type(alloc: Global, bytes: &[u8]) -> Result<Option<FieldType>, DescriptorErr>
    requires ascii { IsAscii bytes.now }
    ensures found { IfOk result (λ found. IsResult found × (bytes.now ≡ spelled_result found)) }
    ensures bad { result ≡ Err DescriptorErr.Bad → (r : Option FieldType) → IsResult r
        → bytes.now ≡ spelled_result r → ⊥ }
{
    match bytes {
        [b'V'] => Ok(None),
        _ => Ok(Some(only_type(alloc, bytes)?)),
    }
}

/// The type that all these bytes spell.
fn only_type(alloc: Global, bytes: &[u8]) -> Result<FieldType, DescriptorErr>
    requires ascii { IsAscii bytes.now }
    ensures found { IfOk result (λ found. IsFieldType found × (bytes.now ≡ spelled_type found)) }
    ensures bad { result ≡ Err DescriptorErr.Bad → (t : FieldType) → IsFieldType t → bytes.now ≡ spelled_type t → ⊥ }
{
    let (found, rest) = first_type(alloc, bytes)?;
    if rest.is_empty() {
        Ok(found)
    } else {
        Err(DescriptorErr::Bad)
    }
}

/// The type at the front, and the bytes behind it.
fn first_type(alloc: Global, bytes: &[u8]) -> Result<(FieldType, &[u8]), DescriptorErr>
    requires { IsAscii bytes.now }
    ensures { Answers (λ found. (found.0, found.1.now)) result (reading.first_type bytes.now) }
{
    match bytes {
        [first, rest @ ..] => type_behind(alloc, *first, rest),
        [] => Err(DescriptorErr::Bad),
    }
}

/// The type that begins with this byte, and the bytes behind it.
fn type_behind(alloc: Global, first: u8, rest: &[u8]) -> Result<(FieldType, &[u8]), DescriptorErr>
    requires { IsAscii rest.now }
    ensures { Answers (λ found. (found.0, found.1.now)) result (reading.type_behind first rest.now) }
{
    match first {
        b'L' => class_type(alloc, rest),
        b'[' => first_array(rest),
        _ => match base_type(first) {
            Some(found) => Ok((found, rest)),
            None => Err(DescriptorErr::Bad),
        },
    }
}

pub(crate) fn base_type(letter: u8) -> Option<FieldType>
    ensures { result ≡ reading.base_type letter }
{
    match letter {
        b'I' => Some(FieldType::Int),
        b'J' => Some(FieldType::Long),
        b'Z' => Some(FieldType::Bool),
        b'C' => Some(FieldType::Char),
        _ => None,
    }
}

/// The array type whose `[` stands before these bytes.
fn first_array(bytes: &[u8]) -> Result<(FieldType, &[u8]), DescriptorErr>
    ensures { Answers (λ found. (found.0, found.1.now)) result (reading.first_array bytes.now) }
{
    if let Some(rest) = behind_prefix(bytes, b"I") {
        return Ok((FieldType::IntArray, rest));
    }
    match behind_prefix(bytes, b"Ljava/lang/Object;") {
        Some(rest) => Ok((FieldType::ObjectArray, rest)),
        None => Err(DescriptorErr::Bad),
    }
}

/// What stands behind a prefix that the bytes begin with.
pub(crate) fn behind_prefix<'a>(bytes: &'a [u8], prefix: &[u8]) -> Option<&'a [u8]>
    ensures { option_map (λ rest. rest.now) result ≡ reading.behind_prefix prefix.now bytes.now }
{
    bytes.strip_prefix(prefix)
}

/// The class type whose `L` stands before these bytes.
fn class_type(alloc: Global, bytes: &[u8]) -> Result<(FieldType, &[u8]), DescriptorErr>
    requires { IsAscii bytes.now }
    ensures { Answers (λ found. (found.0, found.1.now)) result (reading.class_type (reading.first_class bytes.now)) }
{
    match first_class(bytes) {
        Some((name, rest)) => Ok((FieldType::Class(Name::of(alloc, name)?), rest)),
        None => Err(DescriptorErr::Bad),
    }
}

/// The class name before the first `;`, and the bytes behind that.
pub(crate) fn first_class(bytes: &[u8]) -> Option<(&[u8], &[u8])>
    ensures value { option_map (λ found. (found.0.now, found.1.now)) result ≡ reading.first_class bytes.now }
    ensures ascii { IsAscii bytes.now → IfSome result (λ found. IsAscii found.0.now) }
{
    let end = end_of_class(bytes)?;
    let name = &bytes[..end];
    let (_, rest) = bytes.split_at(end + 1);
    if is_class_name(name) {
        Some((name, rest))
    } else {
        None
    }
}

/// Where the first `;` is.
fn end_of_class(bytes: &[u8]) -> Option<usize>
    ensures value { result ≡ position (λ b. b == 59) bytes.now }
    ensures within { IfSome result (λ end. end < length bytes.now) }
{
    bytes.iter().position(|b| *b == b';')
}

/// Whether these bytes are the internal form of a class name (§4.2.1).
fn is_class_name(name: &[u8]) -> bool
    ensures { result ≡ is_class_name name.now }
{
    has_only_name_bytes(name) && has_no_empty_part(name)
}

fn has_only_name_bytes(name: &[u8]) -> bool
    ensures { result ≡ list_all is_name_byte name.now }
{
    name.iter().all(|b| is_name_byte(*b))
}

fn is_name_byte(b: u8) -> bool
    ensures { result ≡ is_name_byte b }
{
    !matches!(b, b'.' | b';' | b'[')
}

fn has_no_empty_part(name: &[u8]) -> bool
    ensures { result ≡ list_all (λ part. nat_lt 0 (length part)) (slice_split (λ b. b == 47) name.now) }
{
    name.split(|b| *b == b'/').all(|part| !part.is_empty())
}
