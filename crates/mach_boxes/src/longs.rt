//! Boxes of `long`.

ghost use Rattle.mach_rows.specs.Boxes as spec;
ghost use Rattle.mach_rows.specs.Courses.{after, ended, is_same};
ghost use Rattle.std.specs.Ordering.{int_eq};
ghost use Rattle.std.specs.Prelude.{◌≡◌, IfOk, OnOk};

use kt_base::NoMemory;
use mach_rows::reading::{as_long, long_of};
use mach_rows::texts::long_text;
use mach_rows::{Fault, NativeEnd, give_new, give_text, give_truth, throw};
use mach_value::{Heap, Object, Value};
use std::alloc::Global;

/// `valueOf(long)`: a new box.
pub fn long_value_of(alloc: Global, heap: &mut Heap, x: Value) -> Result<NativeEnd, NoMemory>
    ensures end { IfOk result (λ e. e ≡ ended (spec.long_value_of x) heap.old) }
    ensures heap { OnOk result (heap.new ≡ after (spec.long_value_of x) heap.old) }
{
    match as_long(x) {
        Some(number) => give_new(heap, Object::Long(number)),
        None => throw(alloc, heap, Fault::NullPointer),
    }
}

/// `longValue()`: what is in the box.
pub fn long_value(alloc: Global, heap: &mut Heap, x: Value) -> Result<NativeEnd, NoMemory>
    ensures end { IfOk result (λ e. e ≡ ended (spec.long_value heap.old x) heap.old) }
    ensures heap { OnOk result (heap.new ≡ after (spec.long_value heap.old x) heap.old) }
{
    match long_of(heap, x) {
        Some(held) => Ok(NativeEnd::Returns(Value::Long(held))),
        None => throw(alloc, heap, Fault::NullPointer),
    }
}

/// Whether another one that is there is the same.
fn is_same(held: i64, other: Option<i64>) -> bool
    ensures { result ≡ is_same int_eq held other }
{
    match other {
        Some(other) => held == other,
        None => false,
    }
}

/// `equals(Object)`: whether the other one is a box of the same kind that holds the same.
pub fn long_equals(
    alloc: Global,
    heap: &mut Heap,
    x: Value,
    y: Value,
) -> Result<NativeEnd, NoMemory>
    ensures end { IfOk result (λ e. e ≡ ended (spec.long_equals heap.old x y) heap.old) }
    ensures heap { OnOk result (heap.new ≡ after (spec.long_equals heap.old x y) heap.old) }
{
    match long_of(heap, x) {
        Some(held) => Ok(give_truth(is_same(held, long_of(heap, y)))),
        None => throw(alloc, heap, Fault::NullPointer),
    }
}

/// `toString()`: the number in decimal.
pub fn long_to_string(alloc: Global, heap: &mut Heap, x: Value) -> Result<NativeEnd, NoMemory>
    ensures end { IfOk result (λ e. e ≡ ended (spec.long_to_string heap.old x) heap.old) }
    ensures heap { OnOk result (heap.new ≡ after (spec.long_to_string heap.old x) heap.old) }
{
    match long_of(heap, x) {
        Some(held) => {
            let text = long_text(alloc, held)?;
            give_text(heap, text)
        }
        None => throw(alloc, heap, Fault::NullPointer),
    }
}
