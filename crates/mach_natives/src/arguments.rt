//! Arguments.

ghost use Rattle.mach_natives.specs.Rows as spec;
ghost use Rattle.std.specs.Prelude.{◌≡◌};

use mach_value::Value;

/// An argument by its place; one that isn't there counts as null.
pub fn argument(arguments: &[Value], at: usize) -> Value
    ensures { result ≡ spec.argument arguments.now at }
{
    match arguments.get(at) {
        Some(value) => *value,
        None => Value::Null,
    }
}
