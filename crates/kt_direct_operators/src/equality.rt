//! `==` where the left side is no object.

ghost use Rattle.kt_direct_values.specs.Forms.{value_form};
ghost use Rattle.kt_meaning.specs.Equality as spec;
ghost use Rattle.std.specs.Prelude.{◌≡◌, Some};

use crate::kinds::is_null;
use kt_direct_values::DirectValue;

/// Whether they are equal; none where the left one can't be compared.
pub fn equal_basic(x: &DirectValue, y: &DirectValue) -> Option<bool>
    ensures { result ≡ spec.equal_basic (value_form x.now) (value_form y.now) }
{
    match x {
        DirectValue::Int(m) => match y {
            DirectValue::Int(n) => Some(m == n),
            _ => Some(false),
        },
        DirectValue::Long(m) => match y {
            DirectValue::Long(n) => Some(m == n),
            _ => Some(false),
        },
        DirectValue::Truth(a) => match y {
            DirectValue::Truth(b) => Some(a == b),
            _ => Some(false),
        },
        DirectValue::Character(c) => match y {
            DirectValue::Character(d) => Some(c == d),
            _ => Some(false),
        },
        DirectValue::Text(t) => match y {
            DirectValue::Text(u) => Some(t == u),
            _ => Some(false),
        },
        DirectValue::Null => Some(is_null(y)),
        DirectValue::Unit => match y {
            DirectValue::Unit => Some(true),
            _ => Some(false),
        },
        DirectValue::Entry(c, m) => match y {
            DirectValue::Entry(d, n) => Some(c == d && m == n),
            _ => Some(false),
        },
        DirectValue::Cell(_) | DirectValue::Closure(_, _) | DirectValue::Reference(_, _) => None,
    }
}
