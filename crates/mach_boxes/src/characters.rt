//! Boxes of characters.

ghost use Rattle.mach_rows.specs.Boxes as spec;
ghost use Rattle.mach_rows.specs.Courses.{after, ended, is_same};
ghost use Rattle.std.specs.Prelude.{◌≡◌, ◌==◌, IfOk, OnOk};

use kt_base::NoMemory;
use mach_rows::reading::{as_int, unit_of};
use mach_rows::texts::unit_text;
use mach_rows::{Fault, NativeEnd, give_new, give_text, give_truth, throw};
use mach_value::values::unit_of as to_unit;
use mach_value::{Heap, Object, Value};
use std::alloc::Global;

/// `valueOf(char)`: a new box.
pub fn character_value_of(alloc: Global, heap: &mut Heap, x: Value) -> Result<NativeEnd, NoMemory>
    ensures end { IfOk result (λ e. e ≡ ended (spec.character_value_of x) heap.old) }
    ensures heap { OnOk result (heap.new ≡ after (spec.character_value_of x) heap.old) }
{
    match as_int(x) {
        Some(number) => give_new(heap, Object::Char(to_unit(number))),
        None => throw(alloc, heap, Fault::NullPointer),
    }
}

/// `charValue()`: what is in the box.
pub fn character_value(alloc: Global, heap: &mut Heap, x: Value) -> Result<NativeEnd, NoMemory>
    ensures end { IfOk result (λ e. e ≡ ended (spec.character_value heap.old x) heap.old) }
    ensures heap { OnOk result (heap.new ≡ after (spec.character_value heap.old x) heap.old) }
{
    match unit_of(heap, x) {
        Some(held) => Ok(NativeEnd::Returns(Value::Int(held as i32))),
        None => throw(alloc, heap, Fault::NullPointer),
    }
}

/// Whether another one that is there is the same.
fn is_same(held: u16, other: Option<u16>) -> bool
    ensures { result ≡ is_same ◌==◌ held other }
{
    match other {
        Some(other) => held == other,
        None => false,
    }
}

/// `equals(Object)`: whether the other one is a box of the same kind that holds the same.
pub fn character_equals(
    alloc: Global,
    heap: &mut Heap,
    x: Value,
    y: Value,
) -> Result<NativeEnd, NoMemory>
    ensures end { IfOk result (λ e. e ≡ ended (spec.character_equals heap.old x y) heap.old) }
    ensures heap { OnOk result (heap.new ≡ after (spec.character_equals heap.old x y) heap.old) }
{
    match unit_of(heap, x) {
        Some(held) => Ok(give_truth(is_same(held, unit_of(heap, y)))),
        None => throw(alloc, heap, Fault::NullPointer),
    }
}

/// `toString()`: the one unit.
pub fn character_to_string(alloc: Global, heap: &mut Heap, x: Value) -> Result<NativeEnd, NoMemory>
    ensures end { IfOk result (λ e. e ≡ ended (spec.character_to_string heap.old x) heap.old) }
    ensures heap { OnOk result (heap.new ≡ after (spec.character_to_string heap.old x) heap.old) }
{
    match unit_of(heap, x) {
        Some(held) => {
            let text = unit_text(alloc, held)?;
            give_text(heap, text)
        }
        None => throw(alloc, heap, Fault::NullPointer),
    }
}
