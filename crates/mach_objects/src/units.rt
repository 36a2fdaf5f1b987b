//! `Unit`, and what a class has that overrides nothing.

ghost use Rattle.mach_rows.specs.Courses.{after, ended};
ghost use Rattle.mach_rows.specs.Objects as spec;
ghost use Rattle.mach_value.specs.declared.heaps.Heap.{Heap};
ghost use Rattle.std.specs.Prelude.{◌≡◌, IfOk, OnOk};

use kt_base::NoMemory;
use mach_rows::texts::ascii_text;
use mach_rows::{Fault, NativeEnd, give_text, give_truth, throw};
use mach_value::{Heap, Value};
use std::alloc::Global;

/// `equals` and `toString` of `java/lang/Object`, which throw.
pub fn no_method(alloc: Global, heap: &mut Heap) -> Result<NativeEnd, NoMemory>
    ensures end { IfOk result (λ e. e ≡ ended spec.no_method heap.old) }
    ensures heap { OnOk result (heap.new ≡ after spec.no_method heap.old) }
{
    throw(alloc, heap, Fault::NoMethod)
}

/// `get()` of `Unit`: its one object.
pub fn unit_get() -> NativeEnd
    ensures { (heap : Heap) → result ≡ ended spec.unit_get heap }
{
    NativeEnd::Returns(Value::Ref(0))
}

fn is_unit(x: Value) -> bool
    ensures { result ≡ spec.is_unit x }
{
    match x {
        Value::Int(_) => false,
        Value::Long(_) => false,
        Value::Null => false,
        Value::Ref(address) => address == 0,
    }
}

/// `equals(Object)` of `Unit`: whether the other one is it.
pub fn unit_equals(y: Value) -> NativeEnd
    ensures { (heap : Heap) → result ≡ ended (spec.unit_equals y) heap }
{
    give_truth(is_unit(y))
}

/// `toString()` of `Unit`.
pub fn unit_to_string(alloc: Global, heap: &mut Heap) -> Result<NativeEnd, NoMemory>
    ensures end { IfOk result (λ e. e ≡ ended spec.unit_to_string heap.old) }
    ensures heap { OnOk result (heap.new ≡ after spec.unit_to_string heap.old) }
{
    let text = ascii_text(alloc, b"kotlin.Unit")?;
    give_text(heap, text)
}
