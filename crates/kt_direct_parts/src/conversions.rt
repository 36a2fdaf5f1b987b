//! The built-in members of numbers.

ghost use Rattle.kt_direct_values.specs.Forms.{value_form};
ghost use Rattle.kt_meaning.specs.BuiltIns as spec;
ghost use Rattle.std.specs.Prelude.{◌≡◌, option_map};

use kt_direct_values::DirectValue;
use kt_typed::BuiltInMethod;
use kt_values::numbers::{to_character, to_int};

/// A number as another kind of value; none where the member isn't one of numbers.
pub fn converted(member: BuiltInMethod, x: &DirectValue) -> Option<DirectValue>
    ensures { option_map value_form result ≡ spec.converted member (value_form x.now) }
{
    match member {
        BuiltInMethod::ToLong => match x {
            DirectValue::Int(n) => Some(DirectValue::Long(*n as i64)),
            _ => None,
        },
        BuiltInMethod::ToChar => match x {
            DirectValue::Int(n) => Some(DirectValue::Character(to_character(*n))),
            _ => None,
        },
        BuiltInMethod::ToInt => match x {
            DirectValue::Long(n) => Some(DirectValue::Int(to_int(*n))),
            _ => None,
        },
        BuiltInMethod::Inv => match x {
            DirectValue::Int(n) => Some(DirectValue::Int(!*n)),
            DirectValue::Long(n) => Some(DirectValue::Long(!*n)),
            _ => None,
        },
        BuiltInMethod::Resume
        | BuiltInMethod::ResumeWithException
        | BuiltInMethod::Substring
        | BuiltInMethod::ToString
        | BuiltInMethod::Join => None,
    }
}
