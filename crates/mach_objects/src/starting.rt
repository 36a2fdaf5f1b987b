//! Constructors, and the message of a throwable.

ghost use Rattle.mach_rows.specs.Courses.{after, ended};
ghost use Rattle.mach_rows.specs.Objects as spec;
ghost use Rattle.std.specs.Prelude.{◌≡◌, IfOk, OnOk};

use kt_base::NoMemory;
use mach_rows::reading::{as_reference, message_of};
use mach_rows::{Fault, NativeEnd, throw};
use mach_value::{Change, Heap, Phase, Value};
use std::alloc::Global;

/// Makes an object ready, which a constructor does.
fn ready(address: u64, heap: &mut Heap) -> NativeEnd
    ensures end { result ≡ ended (spec.ready address heap.old) heap.old }
    ensures heap { heap.new ≡ after (spec.ready address heap.old) heap.old }
{
    heap.objects.change(address, Change::Phase(Phase::Ready));
    NativeEnd::ReturnsNone
}

/// A change of one object.
fn change(change: Change, address: u64, heap: &mut Heap)
    ensures { heap.new ≡ spec.changed change address heap.old }
{
    heap.objects.change(address, change);
}

/// `<init>()` of `java/lang/Object` and of throwables.
pub fn object_init(alloc: Global, heap: &mut Heap, x: Value) -> Result<NativeEnd, NoMemory>
    ensures end { IfOk result (λ e. e ≡ ended (spec.object_init heap.old x) heap.old) }
    ensures heap { OnOk result (heap.new ≡ after (spec.object_init heap.old x) heap.old) }
{
    match as_reference(x) {
        Some(address) => Ok(ready(address, heap)),
        None => throw(alloc, heap, Fault::NullPointer),
    }
}

/// `<init>(String)` of a throwable: takes the message.
pub fn throwable_init_message(
    alloc: Global,
    heap: &mut Heap,
    x: Value,
    message: Value,
) -> Result<NativeEnd, NoMemory>
    ensures end { IfOk result (λ e. e ≡ ended (spec.throwable_init_message heap.old x message) heap.old) }
    ensures heap { OnOk result (heap.new ≡ after (spec.throwable_init_message heap.old x message) heap.old) }
{
    match as_reference(x) {
        Some(address) => {
            change(Change::Message(message), address, heap);
            Ok(ready(address, heap))
        }
        None => throw(alloc, heap, Fault::NullPointer),
    }
}

/// `getMessage()` of a throwable: the text that it holds, or null.
pub fn throwable_get_message(
    alloc: Global,
    heap: &mut Heap,
    x: Value,
) -> Result<NativeEnd, NoMemory>
    ensures end { IfOk result (λ e. e ≡ ended (spec.throwable_get_message heap.old x) heap.old) }
    ensures heap { OnOk result (heap.new ≡ after (spec.throwable_get_message heap.old x) heap.old) }
{
    match message_of(heap, x) {
        Some(message) => Ok(NativeEnd::Returns(message)),
        None => throw(alloc, heap, Fault::NullPointer),
    }
}

/// `<init>(String, int)` of an entry of an enum: takes the name and the ordinal.
pub fn entry_init(
    alloc: Global,
    heap: &mut Heap,
    x: Value,
    name: Value,
    ordinal: Value,
) -> Result<NativeEnd, NoMemory>
    ensures end { IfOk result (λ e. e ≡ ended (spec.entry_init heap.old x name ordinal) heap.old) }
    ensures heap { OnOk result (heap.new ≡ after (spec.entry_init heap.old x name ordinal) heap.old) }
{
    match as_reference(x) {
        Some(address) => {
            change(Change::Field(0, name), address, heap);
            change(Change::Field(1, ordinal), address, heap);
            Ok(ready(address, heap))
        }
        None => throw(alloc, heap, Fault::NullPointer),
    }
}

/// `<init>(ContinuationImpl)` of a continuation: takes the one that goes on behind it.
pub fn continuation_init(
    alloc: Global,
    heap: &mut Heap,
    x: Value,
    completion: Value,
) -> Result<NativeEnd, NoMemory>
    ensures end { IfOk result (λ e. e ≡ ended (spec.continuation_init heap.old x completion) heap.old) }
    ensures heap { OnOk result (heap.new ≡ after (spec.continuation_init heap.old x completion) heap.old) }
{
    match as_reference(x) {
        Some(address) => {
            change(Change::Field(1, completion), address, heap);
            Ok(ready(address, heap))
        }
        None => throw(alloc, heap, Fault::NullPointer),
    }
}
