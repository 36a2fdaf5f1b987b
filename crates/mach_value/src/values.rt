//! Values, and the fields that hold them.

ghost use Rattle.mach_value.specs.Exports as spec;
ghost use Rattle.mach_value.specs.Exports.{held};
ghost use Rattle.std.specs.Prelude.{◌≡◌};

/// A value: an operand, a local variable, an element of an array, or what a field holds.
#[derive(Clone, Copy, Debug, PartialEq, Eq)]
pub enum Value {
    /// An `int`; a boolean or a character counts as one.
    Int(i32),
    Long(i64),
    Null,
    /// The address of an object of the coroutine's heap.
    Ref(u64),
}

/// The kind of a field: what its descriptor says (JVMS SE 8 §4.3.2), one kind for all references.
#[derive(Clone, Copy, Debug, PartialEq, Eq)]
pub enum FieldKind {
    Int,
    Long,
    /// A number counts as true where it isn't 0.
    Bool,
    /// Of a number the low 16 bits count.
    Char,
    Reference,
}

/// A field of an object.
#[derive(Clone, Copy, Debug, PartialEq, Eq)]
pub struct Field {
    pub value: Value,
    pub kind: FieldKind,
    /// It is assigned in a constructor alone, so that a copy of the object is as good as the object.
    pub is_final: bool,
}

impl Field {
    /// A reference that is never assigned anew.
    pub fn held(value: Value) -> Field
        ensures { result ≡ held value }
    {
        Field {
            value,
            kind: FieldKind::Reference,
            is_final: true,
        }
    }
}

/// Whether a number counts as true.
pub fn is_true(number: i32) -> bool
    ensures { result ≡ spec.is_true number }
{
    number != 0
}

/// The UTF-16 unit that a number counts as.
pub fn unit_of(number: i32) -> u16
    ensures { result ≡ spec.unit_of number }
{
    (number.cast_unsigned() % 0x1_0000) as u16
}
