//! What is printed and drawn.

ghost use Rattle.mach_rows.specs.Asking as spec;
ghost use Rattle.mach_rows.specs.Courses.{after, ended, held_in, text_in, ticks};
ghost use Rattle.mach_value.specs.declared.heaps.Heap.{Heap};
ghost use Rattle.std.specs.Prelude.{◌≡◌, ◌||◌, false, IfOk, OnOk};

use kt_base::{Event, NoMemory, Text16};
use mach_rows::reading::text_of;
use mach_rows::{Fault, NativeEnd, throw};
use mach_value::{Heap, Value};
use std::alloc::Global;

pub fn is_null(x: Value) -> bool
    ensures { result ≡ spec.is_null x }
{
    match x {
        Value::Int(_) => false,
        Value::Long(_) => false,
        Value::Null => true,
        Value::Ref(_) => false,
    }
}

pub fn is_either_null(x: Value, y: Value) -> bool
    ensures { result ≡ (spec.is_null x || spec.is_null y) }
{
    is_null(x) || is_null(y)
}

/// What comes before all else: an argument that is null, then a note that stands.
pub fn asking_fault(null: bool, heap: &Heap) -> Option<Fault>
    ensures { result ≡ spec.asking_fault null heap.now }
{
    if null {
        return Some(Fault::NullPointer);
    }
    match heap.note {
        Some(_) => Some(Fault::Suspended),
        None => None,
    }
}

/// A copy of a text, where there is one.
fn text_to_print(heap: &Heap, x: Value) -> Result<Option<Text16>, NoMemory>
    ensures { IfOk result (λ t. t ≡ held_in text_in heap.now x) }
{
    match text_of(heap, x) {
        Some(text) => Ok(Some(text.clone()?)),
        None => Ok(None),
    }
}

/// `println(String)`: asks to print the text. A turn is to be charged before.
pub fn out_println(alloc: Global, heap: &mut Heap, x: Value) -> Result<NativeEnd, NoMemory>
    ensures end { IfOk result (λ e. e ≡ ended (spec.out_println heap.old x) heap.old) }
    ensures heap { OnOk result (heap.new ≡ after (spec.out_println heap.old x) heap.old) }
{
    match asking_fault(is_null(x), heap) {
        Some(fault) => throw(alloc, heap, fault),
        None => match text_to_print(heap, x)? {
            Some(text) => Ok(NativeEnd::Asks(Event::Print(text))),
            None => throw(alloc, heap, Fault::NullPointer),
        },
    }
}

/// `make()`: asks for the number of a new cell.
pub fn cells_make(alloc: Global, heap: &mut Heap) -> Result<NativeEnd, NoMemory>
    ensures end { IfOk result (λ e. e ≡ ended (spec.cells_make heap.old) heap.old) }
    ensures heap { OnOk result (heap.new ≡ after (spec.cells_make heap.old) heap.old) }
{
    match asking_fault(false, heap) {
        Some(fault) => throw(alloc, heap, fault),
        None => Ok(NativeEnd::Asks(Event::Draw)),
    }
}

/// `tick()`: charges a turn.
pub fn tick() -> NativeEnd
    ensures { (heap : Heap) → result ≡ ended ticks heap }
{
    NativeEnd::Ticks
}
