//! Values as texts: `of`.

ghost use Rattle.mach_rows.specs.Courses.{after, ended};
ghost use Rattle.mach_rows.specs.Texts as spec;
ghost use Rattle.std.specs.Prelude.{◌≡◌, IfOk, OnOk};

use kt_base::NoMemory;
use mach_rows::reading::{as_int, as_long};
use mach_rows::texts::{int_text, long_text, truth_text, unit_text};
use mach_rows::{Fault, NativeEnd, give_text, throw};
use mach_value::values::{is_true, unit_of};
use mach_value::{Heap, Value};
use std::alloc::Global;

/// `of(int)`: the number in decimal.
pub fn text_of_int(alloc: Global, heap: &mut Heap, x: Value) -> Result<NativeEnd, NoMemory>
    ensures end { IfOk result (λ e. e ≡ ended (spec.text_of_int x) heap.old) }
    ensures heap { OnOk result (heap.new ≡ after (spec.text_of_int x) heap.old) }
{
    match as_int(x) {
        Some(number) => {
            let text = int_text(alloc, number)?;
            give_text(heap, text)
        }
        None => throw(alloc, heap, Fault::NullPointer),
    }
}

/// `of(long)`: the number in decimal.
pub fn text_of_long(alloc: Global, heap: &mut Heap, x: Value) -> Result<NativeEnd, NoMemory>
    ensures end { IfOk result (λ e. e ≡ ended (spec.text_of_long x) heap.old) }
    ensures heap { OnOk result (heap.new ≡ after (spec.text_of_long x) heap.old) }
{
    match as_long(x) {
        Some(number) => {
            let text = long_text(alloc, number)?;
            give_text(heap, text)
        }
        None => throw(alloc, heap, Fault::NullPointer),
    }
}

/// `of(boolean)`: `true` or `false`.
pub fn text_of_boolean(alloc: Global, heap: &mut Heap, x: Value) -> Result<NativeEnd, NoMemory>
    ensures end { IfOk result (λ e. e ≡ ended (spec.text_of_boolean x) heap.old) }
    ensures heap { OnOk result (heap.new ≡ after (spec.text_of_boolean x) heap.old) }
{
    match as_int(x) {
        Some(number) => {
            let text = truth_text(alloc, is_true(number))?;
            give_text(heap, text)
        }
        None => throw(alloc, heap, Fault::NullPointer),
    }
}

/// `of(char)`: the one unit.
pub fn text_of_character(alloc: Global, heap: &mut Heap, x: Value) -> Result<NativeEnd, NoMemory>
    ensures end { IfOk result (λ e. e ≡ ended (spec.text_of_character x) heap.old) }
    ensures heap { OnOk result (heap.new ≡ after (spec.text_of_character x) heap.old) }
{
    match as_int(x) {
        Some(number) => {
            let text = unit_text(alloc, unit_of(number))?;
            give_text(heap, text)
        }
        None => throw(alloc, heap, Fault::NullPointer),
    }
}
