//! Strings as they are: `length`, `equals`, `toString`.

ghost use Rattle.mach_rows.specs.Courses.{after, count, ended};
ghost use Rattle.mach_rows.specs.Courses as course;
ghost use Rattle.mach_rows.specs.Texts as spec;
ghost use Rattle.mach_value.specs.declared.heaps.Heap.{Heap};
ghost use Rattle.std.specs.Option.{option_copied};
ghost use Rattle.std.specs.Prelude.{◌≡◌, IfOk, OnOk};

use kt_base::{NoMemory, Text16};
use mach_rows::reading::text_of;
use mach_rows::{Fault, NativeEnd, give_truth, throw};
use mach_value::{Heap, Value};
use std::alloc::Global;

/// A count as an `int`: its low 32 bits.
fn give_count(count: usize) -> NativeEnd
    ensures { (heap : Heap) → result ≡ ended (course.count count) heap }
{
    NativeEnd::Returns(Value::Int(((count % 0x1_0000_0000) as u32).cast_signed()))
}

/// `length()` of a string: the number of its UTF-16 units.
pub fn string_length(alloc: Global, heap: &mut Heap, x: Value) -> Result<NativeEnd, NoMemory>
    ensures end { IfOk result (λ e. e ≡ ended (spec.string_length heap.old x) heap.old) }
    ensures heap { OnOk result (heap.new ≡ after (spec.string_length heap.old x) heap.old) }
{
    match text_of(heap, x) {
        Some(text) => Ok(give_count(text.units().len())),
        None => throw(alloc, heap, Fault::NullPointer),
    }
}

/// Whether another one that is there is the same text.
fn is_same_text(text: &Text16, other: Option<&Text16>) -> bool
    ensures { result ≡ course.is_same spec.same_text text.now (option_copied other.entry) }
{
    match other {
        Some(other) => text == other,
        None => false,
    }
}

/// `equals(Object)` of a string: whether the other one is a string of the same units.
pub fn string_equals(
    alloc: Global,
    heap: &mut Heap,
    x: Value,
    y: Value,
) -> Result<NativeEnd, NoMemory>
    ensures end { IfOk result (λ e. e ≡ ended (spec.string_equals heap.old x y) heap.old) }
    ensures heap { OnOk result (heap.new ≡ after (spec.string_equals heap.old x y) heap.old) }
{
    match text_of(heap, x) {
        Some(text) => Ok(give_truth(is_same_text(text, text_of(heap, y)))),
        None => throw(alloc, heap, Fault::NullPointer),
    }
}

/// `toString()` of a string: the string itself.
pub fn string_to_string(alloc: Global, heap: &mut Heap, x: Value) -> Result<NativeEnd, NoMemory>
    ensures end { IfOk result (λ e. e ≡ ended (spec.string_to_string heap.old x) heap.old) }
    ensures heap { OnOk result (heap.new ≡ after (spec.string_to_string heap.old x) heap.old) }
{
    match text_of(heap, x) {
        Some(_) => Ok(NativeEnd::Returns(x)),
        None => throw(alloc, heap, Fault::NullPointer),
    }
}
