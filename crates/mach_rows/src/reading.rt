//! What references refer to.

ghost use Rattle.mach_rows.specs.Courses as spec;
ghost use Rattle.mach_rows.specs.Objects as objects;
ghost use Rattle.mach_rows.specs.Courses.{held_in};
ghost use Rattle.std.specs.Option.{option_copied};
ghost use Rattle.std.specs.Prelude.{◌≡◌};

use kt_base::Text16;
use mach_value::{Heap, Object, Value};

/// The object that a reference refers to; none for any other value.
pub fn object_of(heap: &Heap, x: Value) -> Option<&Object>
    ensures { option_copied result ≡ spec.object_of heap.now x }
{
    match x {
        Value::Ref(address) => heap.objects.at(address),
        Value::Int(_) => None,
        Value::Long(_) => None,
        Value::Null => None,
    }
}

fn text_in(object: &Object) -> Option<&Text16>
    ensures { option_copied result ≡ spec.text_in object.now }
{
    match object {
        Object::Text(found) => Some(found),
        Object::Int(_)
        | Object::Long(_)
        | Object::Bool(_)
        | Object::Char(_)
        | Object::Cell(_)
        | Object::Numbers(_)
        | Object::Elements(_)
        | Object::Throwable(_, _)
        | Object::Instance(_) => None,
    }
}

/// The string that a reference refers to.
pub fn text_of(heap: &Heap, x: Value) -> Option<&Text16>
    ensures { option_copied result ≡ held_in spec.text_in heap.now x }
{
    match object_of(heap, x) {
        Some(object) => text_in(object),
        None => None,
    }
}

fn int_in(object: &Object) -> Option<i32>
    ensures { result ≡ spec.int_in object.now }
{
    match object {
        Object::Int(found) => Some(*found),
        Object::Text(_)
        | Object::Long(_)
        | Object::Bool(_)
        | Object::Char(_)
        | Object::Cell(_)
        | Object::Numbers(_)
        | Object::Elements(_)
        | Object::Throwable(_, _)
        | Object::Instance(_) => None,
    }
}

/// The number in a box of an `int`.
pub fn int_of(heap: &Heap, x: Value) -> Option<i32>
    ensures { result ≡ held_in spec.int_in heap.now x }
{
    match object_of(heap, x) {
        Some(object) => int_in(object),
        None => None,
    }
}

fn long_in(object: &Object) -> Option<i64>
    ensures { result ≡ spec.long_in object.now }
{
    match object {
        Object::Long(found) => Some(*found),
        Object::Text(_)
        | Object::Int(_)
        | Object::Bool(_)
        | Object::Char(_)
        | Object::Cell(_)
        | Object::Numbers(_)
        | Object::Elements(_)
        | Object::Throwable(_, _)
        | Object::Instance(_) => None,
    }
}

/// The number in a box of a `long`.
pub fn long_of(heap: &Heap, x: Value) -> Option<i64>
    ensures { result ≡ held_in spec.long_in heap.now x }
{
    match object_of(heap, x) {
        Some(object) => long_in(object),
        None => None,
    }
}

fn truth_in(object: &Object) -> Option<bool>
    ensures { result ≡ spec.truth_in object.now }
{
    match object {
        Object::Bool(found) => Some(*found),
        Object::Text(_)
        | Object::Int(_)
        | Object::Long(_)
        | Object::Char(_)
        | Object::Cell(_)
        | Object::Numbers(_)
        | Object::Elements(_)
        | Object::Throwable(_, _)
        | Object::Instance(_) => None,
    }
}

/// The truth value in a box.
pub fn truth_of(heap: &Heap, x: Value) -> Option<bool>
    ensures { result ≡ held_in spec.truth_in heap.now x }
{
    match object_of(heap, x) {
        Some(object) => truth_in(object),
        None => None,
    }
}

fn unit_in(object: &Object) -> Option<u16>
    ensures { result ≡ spec.unit_in object.now }
{
    match object {
        Object::Char(found) => Some(*found),
        Object::Text(_)
        | Object::Int(_)
        | Object::Long(_)
        | Object::Bool(_)
        | Object::Cell(_)
        | Object::Numbers(_)
        | Object::Elements(_)
        | Object::Throwable(_, _)
        | Object::Instance(_) => None,
    }
}

/// The unit in a box of a character.
pub fn unit_of(heap: &Heap, x: Value) -> Option<u16>
    ensures { result ≡ held_in spec.unit_in heap.now x }
{
    match object_of(heap, x) {
        Some(object) => unit_in(object),
        None => None,
    }
}

fn cell_in(object: &Object) -> Option<u32>
    ensures { result ≡ spec.cell_in object.now }
{
    match object {
        Object::Cell(found) => Some(*found),
        Object::Text(_)
        | Object::Int(_)
        | Object::Long(_)
        | Object::Bool(_)
        | Object::Char(_)
        | Object::Numbers(_)
        | Object::Elements(_)
        | Object::Throwable(_, _)
        | Object::Instance(_) => None,
    }
}

/// The number of a cell.
pub fn cell_of(heap: &Heap, x: Value) -> Option<u32>
    ensures { result ≡ held_in spec.cell_in heap.now x }
{
    match object_of(heap, x) {
        Some(object) => cell_in(object),
        None => None,
    }
}

fn message_in(object: &Object) -> Option<Value>
    ensures { result ≡ spec.message_in object.now }
{
    match object {
        Object::Throwable(found, _) => Some(*found),
        Object::Text(_)
        | Object::Int(_)
        | Object::Long(_)
        | Object::Bool(_)
        | Object::Char(_)
        | Object::Cell(_)
        | Object::Numbers(_)
        | Object::Elements(_)
        | Object::Instance(_) => None,
    }
}

/// The message of a throwable.
pub fn message_of(heap: &Heap, x: Value) -> Option<Value>
    ensures { result ≡ held_in spec.message_in heap.now x }
{
    match object_of(heap, x) {
        Some(object) => message_in(object),
        None => None,
    }
}

/// The number that an `int` is; none for any other value.
pub fn as_int(x: Value) -> Option<i32>
    ensures { result ≡ spec.as_int x }
{
    match x {
        Value::Int(number) => Some(number),
        Value::Long(_) => None,
        Value::Null => None,
        Value::Ref(_) => None,
    }
}

/// The number that a `long` is; none for any other value.
pub fn as_long(x: Value) -> Option<i64>
    ensures { result ≡ spec.as_long x }
{
    match x {
        Value::Int(_) => None,
        Value::Long(number) => Some(number),
        Value::Null => None,
        Value::Ref(_) => None,
    }
}

/// The address that a reference is; none for any other value.
pub fn as_reference(x: Value) -> Option<u64>
    ensures { result ≡ objects.as_reference x }
{
    match x {
        Value::Int(_) => None,
        Value::Long(_) => None,
        Value::Null => None,
        Value::Ref(address) => Some(address),
    }
}
