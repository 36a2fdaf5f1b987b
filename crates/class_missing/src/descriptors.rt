//! The classes that descriptors name (JVMS SE 8 §4.3).

ghost use Rattle.class_missing.specs.Missing.{class_missing, cut_before, first_name, is_missing, missing_within};
ghost use Rattle.class_missing.specs.Missing.{type_missing};
ghost use Rattle.std.specs.Prelude.{◌≡◌, ◌==◌, ◌<◌, IfSome, is_some, length, option_map, position};
ghost use Rattle.std.specs.Str.{IsAscii};

use class_members::Hierarchy;
use kt_base::Name;

/// A name, where no class has it.
pub(crate) fn missing_class<'a>(h: &Hierarchy, name: &'a [u8]) -> Option<&'a [u8]>
    ensures value { option_map (λ n. n.now) result ≡ class_missing h.now name.now }
    ensures ascii { IsAscii name.now → IfSome result (λ n. IsAscii n.now) }
{
    match h.headers.number(name) {
        None => Some(name),
        Some(_) => None,
    }
}

/// Whether no class has a name.
pub(crate) fn is_missing(h: &Hierarchy, name: &[u8]) -> bool
    ensures { result ≡ is_missing h.now name.now }
{
    h.headers.number(name).is_none()
}

fn place_of(bytes: &[u8], byte: u8) -> Option<usize>
    ensures value { result ≡ position (λ b. b == byte) bytes.now }
    ensures within { IfSome result (λ place. place < length bytes.now) }
{
    bytes.iter().position(|b| *b == byte)
}

/// What stands before the first `;`, and what behind it.
fn cut(bytes: &[u8]) -> Option<(&[u8], &[u8])>
    ensures value { option_map (λ found. (found.0.now, found.1.now)) result
        ≡ cut_before bytes.now (position (λ b. b == 59) bytes.now) }
    ensures ascii { IsAscii bytes.now → IfSome result (λ found. IsAscii found.0.now × IsAscii found.1.now) }
{
    let end = place_of(bytes, b';')?;
    let name = &bytes[..end];
    let (_, rest) = bytes.split_at(end + 1);
    Some((name, rest))
}

/// The first name in a descriptor, and what stands behind it.
fn first_name(bytes: &[u8]) -> Option<(&[u8], &[u8])>
    ensures value { option_map (λ found. (found.0.now, found.1.now)) result ≡ first_name bytes.now }
    ensures ascii { IsAscii bytes.now → IfSome result (λ found. IsAscii found.0.now × IsAscii found.1.now) }
{
    let start = place_of(bytes, b'L')?;
    let (_, rest) = bytes.split_at(start + 1);
    cut(rest)
}

/// The first class that a descriptor names and that isn't there, where so many names are looked at.
#[tactic(auto, using(crate::proofs::Names::none_left, crate::proofs::Names::one_more))]
fn missing_within<'a>(h: &Hierarchy, left: usize, bytes: &'a [u8]) -> Option<&'a [u8]>
    ensures value { option_map (λ n. n.now) result ≡ missing_within h.now left bytes.now }
    ensures ascii { IsAscii bytes.now → IfSome result (λ n. IsAscii n.now) }
{
    if left == 0 {
        return None;
    }
    match first_name(bytes) {
        None => None,
        Some((name, rest)) => match missing_class(h, name) {
            Some(name) => Some(name),
            None => missing_within(h, left - 1, rest),
        },
    }
}

/// The first class that a descriptor names and that isn't there.
pub(crate) fn missing_type<'a>(h: &Hierarchy, descriptor: &'a Name) -> Option<&'a [u8]>
    ensures value { option_map (λ n. n.now) result ≡ type_missing h.now descriptor.now }
    ensures ascii { IfSome result (λ n. IsAscii n.now) }
{
    let bytes = descriptor.as_bytes();
    missing_within(h, bytes.len(), bytes)
}
