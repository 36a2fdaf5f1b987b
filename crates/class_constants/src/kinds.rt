//! The kinds of declared values (JVMS SE 8 §4.3.2).

ghost use Rattle.class_constants.specs.Kinds.{class_of, field_kind, value_kind};
ghost use Rattle.jvm_class_start.specs.Arguments.{type_seen};
ghost use Rattle.std.specs.Prelude.{◌≡◌};

use class_headers::ClassTable;
use class_linked::ValueKind;
use jvm_class_start::ArgumentType;
use jvm_class_start::types::first_type;

/// The number of `java/lang/Object`.
const OBJECT: usize = 0;
/// The number of `[I`.
const INT_ARRAY: usize = 34;
/// The number of `[Ljava/lang/Object;`.
const OBJECT_ARRAY: usize = 35;

/// The number of the class of a name; that of `java/lang/Object` where no class has it, which linked classes don't ask
/// for.
pub fn class_of(headers: &ClassTable, name: &[u8]) -> usize
    ensures { result ≡ class_of headers.now name.now }
{
    match headers.number(name) {
        None => OBJECT,
        Some(class) => class,
    }
}

/// The kind of a value of a type.
pub fn value_kind(headers: &ClassTable, found: ArgumentType<'_>) -> ValueKind
    ensures { result ≡ value_kind headers.now (type_seen found.entry) }
{
    match found {
        ArgumentType::Int => ValueKind::Int,
        ArgumentType::Long => ValueKind::Long,
        ArgumentType::Bool => ValueKind::Bool,
        ArgumentType::Char => ValueKind::Char,
        ArgumentType::Class(name) => ValueKind::Object(class_of(headers, name)),
        ArgumentType::IntArray => ValueKind::Object(INT_ARRAY),
        ArgumentType::ObjectArray => ValueKind::Object(OBJECT_ARRAY),
    }
}

/// The kind of a field of a descriptor.
pub fn field_kind(headers: &ClassTable, descriptor: &[u8]) -> ValueKind
    ensures { result ≡ field_kind headers.now descriptor.now }
{
    match first_type(descriptor) {
        None => ValueKind::Object(OBJECT),
        Some((found, _)) => value_kind(headers, found),
    }
}
