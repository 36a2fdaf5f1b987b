//! Boxes of truth values.

ghost use Rattle.mach_rows.specs.Boxes as spec;
ghost use Rattle.mach_rows.specs.Courses.{after, ended, is_same};
ghost use Rattle.std.specs.Bool.{beq};
ghost use Rattle.std.specs.Prelude.{◌≡◌, IfOk, OnOk};

use kt_base::NoMemory;
use mach_rows::reading::{as_int, truth_of};
use mach_rows::texts::truth_text;
use mach_rows::{Fault, NativeEnd, give_new, give_text, give_truth, throw};
use mach_value::values::is_true;
use mach_value::{Heap, Object, Value};
use std::alloc::Global;

/// `valueOf(boolean)`: a new box.
pub fn boolean_value_of(alloc: Global, heap: &mut Heap, x: Value) -> Result<NativeEnd, NoMemory>
    ensures end { IfOk result (λ e. e ≡ ended (spec.boolean_value_of x) heap.old) }
    ensures heap { OnOk result (heap.new ≡ after (spec.boolean_value_of x) heap.old) }
{
    match as_int(x) {
        Some(number) => give_new(heap, Object::Bool(is_true(number))),
        None => throw(alloc, heap, Fault::NullPointer),
    }
}

/// `booleanValue()`: what is in the box.
pub fn boolean_value(alloc: Global, heap: &mut Heap, x: Value) -> Result<NativeEnd, NoMemory>
    ensures end { IfOk result (λ e. e ≡ ended (spec.boolean_value heap.old x) heap.old) }
    ensures heap { OnOk result (heap.new ≡ after (spec.boolean_value heap.old x) heap.old) }
{
    match truth_of(heap, x) {
        Some(held) => Ok(give_truth(held)),
        None => throw(alloc, heap, Fault::NullPointer),
    }
}

/// Whether another one that is there is the same.
fn is_same(held: bool, other: Option<bool>) -> bool
    ensures { result ≡ is_same beq held other }
{
    match other {
        Some(other) => held == other,
        None => false,
    }
}

/// `equals(Object)`: whether the other one is a box of the same kind that holds the same.
pub fn boolean_equals(
    alloc: Global,
    heap: &mut Heap,
    x: Value,
    y: Value,
) -> Result<NativeEnd, NoMemory>
    ensures end { IfOk result (λ e. e ≡ ended (spec.boolean_equals heap.old x y) heap.old) }
    ensures heap { OnOk result (heap.new ≡ after (spec.boolean_equals heap.old x y) heap.old) }
{
    match truth_of(heap, x) {
        Some(held) => Ok(give_truth(is_same(held, truth_of(heap, y)))),
        None => throw(alloc, heap, Fault::NullPointer),
    }
}

/// `toString()`: `true` or `false`.
pub fn boolean_to_string(alloc: Global, heap: &mut Heap, x: Value) -> Result<NativeEnd, NoMemory>
    ensures end { IfOk result (λ e. e ≡ ended (spec.boolean_to_string heap.old x) heap.old) }
    ensures heap { OnOk result (heap.new ≡ after (spec.boolean_to_string heap.old x) heap.old) }
{
    match truth_of(heap, x) {
        Some(held) => {
            let text = truth_text(alloc, held)?;
            give_text(heap, text)
        }
        None => throw(alloc, heap, Fault::NullPointer),
    }
}
