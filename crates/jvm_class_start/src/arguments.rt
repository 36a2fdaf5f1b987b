//! The parameters that the descriptor of a method has (JVMS SE 8 §4.3.3). No call here takes memory.

ghost use Rattle.jvm_class_grammar.specs.Kinds.{parameters, type_units, units_of};
ghost use Rattle.jvm_class_start.specs.Arguments.{behind_first, next_type, type_seen, IsAsciiType};
ghost use Rattle.std.specs.Prelude.{◌≡◌, ◌*◌, ◌≤◌, length, option_map, IfSome};
ghost use Rattle.std.specs.Str.{IsAscii};

use crate::types::{ArgumentType, first_type};

/// What stands behind the `(` of a descriptor.
pub fn behind_open(descriptor: &[u8]) -> &[u8]
    ensures { result.now ≡ behind_first descriptor.now }
{
    match descriptor {
        [_, rest @ ..] => rest,
        [] => descriptor,
    }
}

/// The type of the next parameter, and what stands behind it: `None` exactly where a `)` or no type is at the front.
pub fn argument<'a>(bytes: &'a [u8]) -> Option<(ArgumentType<'a>, &'a [u8])>
    ensures value { option_map (λ x. (type_seen x.0, x.1.now)) result ≡ next_type bytes.now }
    ensures ascii { IsAscii bytes.now → IfSome result (λ x. IsAsciiType x.0) }
{
    match bytes {
        [b')', ..] => None,
        _ => first_type(bytes),
    }
}

impl<'a> ArgumentType<'a> {
    /// How many units of the local variables a value takes: 2 for a `long`, else 1.
    pub fn units(self) -> u64
        ensures { result ≡ type_units (type_seen self.entry) }
    {
        match self {
            ArgumentType::Long => 2,
            _ => 1,
        }
    }
}

/// How many units of the local variables the parameters of a method take (§2.6.1).
#[tactic(auto, using(crate::proofs::Walks::units_some))]
pub fn argument_units(descriptor: &[u8]) -> u64
    ensures value { result ≡ units_of (parameters descriptor.now) }
    ensures fits { result ≤ 2 * length descriptor.now }
{
    let start = behind_open(descriptor);
    let mut rest = start;
    let mut units = 0u64;
    for i in 0..start.len() {
        match argument(rest) {
            Some((found, behind)) => {
                units += found.units();
                rest = behind;
            }
            None => return units,
        }
    }
    units
}
