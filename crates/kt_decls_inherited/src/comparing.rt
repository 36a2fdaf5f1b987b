//! Equality of descriptors.

ghost use Rattle.kt_decls_inherited.specs.Erased.{descriptor_form, erased_form};
ghost use Rattle.kt_decls_rules.specs.ClassRules.{HaveSameDescriptor};
ghost use Rattle.std.specs.Prelude.{◌≡◌, ◌↔◌, map, option_map, IsTrue};

use crate::erasing::{Descriptor, ErasedType};

/// Whether two erased types are one.
fn is_same(a: ErasedType, b: ErasedType) -> bool
    ensures { IsTrue result ↔ (a ≡ b) }
{
    a == b
}

/// Whether two lists of erased types are one.
fn are_same(all: &[ErasedType], others: &[ErasedType]) -> bool
    ensures { IsTrue result ↔ (all.now ≡ others.now) }
{
    match all {
        [] => match others {
            [] => true,
            _ => false,
        },
        [a, more @ ..] => match others {
            [] => false,
            [b, rest @ ..] => is_same(*a, *b) && are_same(more, rest),
        },
    }
}

fn is_same_known(a: &Descriptor, b: &Descriptor) -> bool
    ensures { IsTrue result ↔ (descriptor_form a.now ≡ descriptor_form b.now) }
{
    let same = is_same(a.result, b.result);
    if same {
        are_same(a.parameters.as_slice(), b.parameters.as_slice())
    } else {
        false
    }
}

/// Whether two descriptors are one; where a function has none, nothing is compared.
pub fn is_same_descriptor(a: &Option<Descriptor>, b: &Option<Descriptor>) -> bool
    ensures { IsTrue result
        ↔ HaveSameDescriptor (option_map descriptor_form a.now) (option_map descriptor_form b.now) }
{
    match a {
        None => true,
        Some(a) => match b {
            None => true,
            Some(b) => is_same_known(a, b),
        },
    }
}
