//! Whether a text is a descriptor (JVMS SE 8 §4.3.2, §4.3.3), without memory.

ghost use Rattle.jvm_pool.specs.DescriptorReading as reading;
ghost use Rattle.jvm_pool.specs.Descriptors.{spelled_type, spelled_result, IsFieldType, IsResult, IsOfField, IsOfMethod};
ghost use Rattle.jvm_pool.specs.declared.descriptors.FieldType.{FieldType};
ghost use Rattle.std.specs.List.{flat_map};
ghost use Rattle.std.specs.Prelude.{◌≡◌, ◌↔◌, ◌++◌, ◌∷◌, ℕ, List, All, Option, None, codes, option_map, IfSome, IsTrue};

use crate::descriptor_reading::{base_type, behind_prefix, first_class, is_closed};
use kt_base::Name;

/// Whether a text is the descriptor of a field (§4.3.2). Takes no memory.
pub fn is_field_descriptor(text: &Name) -> bool
    ensures { IsTrue result ↔ IsOfField text.now }
{
    is_type(text.as_bytes())
}

/// Whether a text is the descriptor of a method (§4.3.3). Takes no memory.
pub fn is_method_descriptor(text: &Name) -> bool
    ensures { IsTrue result ↔ IsOfMethod text.now }
{
    match text.as_bytes() {
        [b'(', rest @ ..] => is_method_behind(rest),
        _ => false,
    }
}

/// Whether these bytes and a `(` before them are the descriptor of a method.
fn is_method_behind(bytes: &[u8]) -> bool
    ensures { IsTrue result ↔ IsOfMethod (40 ∷ bytes.now) }
{
    match behind_parameters(bytes) {
        Some(rest) => is_result(rest),
        None => false,
    }
}

/// What stands behind types and the `)` that ends them: `None` exactly where none are at the front.
fn behind_parameters(bytes: &[u8]) -> Option<&[u8]>
    ensures some { IfSome result
        (λ rest. (types : List FieldType) × All IsFieldType types
        × (bytes.now ≡ flat_map spelled_type types ++ codes ")" ++ rest.now)) }
    ensures none { result ≡ None → (types : List FieldType) (rest : List ℕ) → All IsFieldType types
        → bytes.now ≡ flat_map spelled_type types ++ codes ")" ++ rest → ⊥ }
{
    let mut rest = bytes;
    'types: while !is_closed(rest) {
        rest = behind_type(rest)?;
    }
    let (_, behind) = rest.split_at(1);
    Some(behind)
}

/// Whether these bytes spell the result of a method.
fn is_result(bytes: &[u8]) -> bool
    ensures yes { IsTrue result → (r : Option FieldType) × IsResult r × (bytes.now ≡ spelled_result r) }
    ensures no { (r : Option FieldType) → IsResult r → bytes.now ≡ spelled_result r → IsTrue result }
{
    match bytes {
        [b'V'] => true,
        _ => is_type(bytes),
    }
}

/// Whether these bytes spell a type.
fn is_type(bytes: &[u8]) -> bool
    ensures { IsTrue result ↔ IsOfField bytes.now }
{
    match behind_type(bytes) {
        Some(rest) => rest.is_empty(),
        None => false,
    }
}

/// What stands behind the type at the front.
fn behind_type(bytes: &[u8]) -> Option<&[u8]>
    ensures { option_map (λ rest. rest.now) result ≡ option_map (λ found. found.1) (reading.first_type bytes.now) }
{
    match bytes {
        [b'L', rest @ ..] => behind_class(rest),
        [b'[', rest @ ..] => behind_array(rest),
        [first, rest @ ..] => behind_letter(*first, rest),
        [] => None,
    }
}

/// What stands behind the class type whose `L` stands before these bytes.
fn behind_class(bytes: &[u8]) -> Option<&[u8]>
    ensures { option_map (λ rest. rest.now) result ≡ option_map (λ found. found.1)
        (reading.class_type (reading.first_class bytes.now)) }
{
    match first_class(bytes) {
        Some((_, rest)) => Some(rest),
        None => None,
    }
}

/// What stands behind the array type whose `[` stands before these bytes.
fn behind_array(bytes: &[u8]) -> Option<&[u8]>
    ensures { option_map (λ rest. rest.now) result ≡ option_map (λ found. found.1) (reading.first_array bytes.now) }
{
    match behind_prefix(bytes, b"I") {
        Some(rest) => Some(rest),
        None => behind_prefix(bytes, b"Ljava/lang/Object;"),
    }
}

/// What stands behind a type of one letter.
fn behind_letter(letter: u8, rest: &[u8]) -> Option<&[u8]>
    ensures { option_map (λ rest. rest.now) result ≡ option_map (λ found. found.1)
        (reading.with_rest rest.now (reading.base_type letter)) }
{
    match base_type(letter) {
        Some(_) => Some(rest),
        None => None,
    }
}
