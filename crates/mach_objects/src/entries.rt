//! Entries of enums.

ghost use Rattle.mach_rows.specs.Courses.{after, ended, held_in, is_same};
ghost use Rattle.mach_rows.specs.Objects as spec;
ghost use Rattle.mach_value.specs.Access.{field_in};
ghost use Rattle.std.specs.Option.{option_copied};
ghost use Rattle.std.specs.Ordering.{int_eq};
ghost use Rattle.std.specs.Prelude.{◌≡◌, IfOk, OnOk};

use kt_base::{Name, NoMemory};
use mach_rows::reading::{as_int, object_of};
use mach_rows::{Fault, NativeEnd, give_truth, throw};
use mach_value::{Heap, Value};
use std::alloc::Global;

/// The ordinal of an entry; none for what is none.
fn ordinal_of(heap: &Heap, x: Value) -> Option<i32>
    ensures { result ≡ held_in (λ object. spec.ordinal_in object) heap.now x }
{
    match object_of(heap, x) {
        Some(object) => match object.field(1) {
            Some(ordinal) => as_int(ordinal),
            None => None,
        },
        None => None,
    }
}

/// The name of the class of an object.
fn class_of(heap: &Heap, x: Value) -> Option<&Name>
    ensures { option_copied result ≡ held_in (λ object. spec.class_in object) heap.now x }
{
    match object_of(heap, x) {
        Some(object) => match object.instance() {
            Some(instance) => Some(instance.class.name()),
            None => None,
        },
        None => None,
    }
}

fn is_same_class(c: Option<&Name>, d: Option<&Name>) -> bool
    ensures { result ≡ spec.same_class (option_copied c.entry) (option_copied d.entry) }
{
    match c {
        Some(c) => match d {
            Some(d) => c == d,
            None => false,
        },
        None => false,
    }
}

fn is_same_ordinal(i: i32, other: Option<i32>) -> bool
    ensures { result ≡ is_same int_eq i other }
{
    match other {
        Some(j) => i == j,
        None => false,
    }
}

/// `equals(Object)` of an entry: whether the other one is of its class and has its ordinal.
pub fn entry_equals(
    alloc: Global,
    heap: &mut Heap,
    x: Value,
    y: Value,
) -> Result<NativeEnd, NoMemory>
    ensures end { IfOk result (λ e. e ≡ ended (spec.entry_equals heap.old x y) heap.old) }
    ensures heap { OnOk result (heap.new ≡ after (spec.entry_equals heap.old x y) heap.old) }
{
    match ordinal_of(heap, x) {
        Some(i) => {
            let same_class = is_same_class(class_of(heap, x), class_of(heap, y));
            let same_ordinal = is_same_ordinal(i, ordinal_of(heap, y));
            Ok(give_truth(same_class && same_ordinal))
        }
        None => throw(alloc, heap, Fault::NullPointer),
    }
}

fn name_of(heap: &Heap, x: Value) -> Option<Value>
    ensures { result ≡ held_in (λ object. field_in 0 object) heap.now x }
{
    match object_of(heap, x) {
        Some(object) => object.field(0),
        None => None,
    }
}

/// `toString()` of an entry: its name.
pub fn entry_to_string(alloc: Global, heap: &mut Heap, x: Value) -> Result<NativeEnd, NoMemory>
    ensures end { IfOk result (λ e. e ≡ ended (spec.entry_to_string heap.old x) heap.old) }
    ensures heap { OnOk result (heap.new ≡ after (spec.entry_to_string heap.old x) heap.old) }
{
    match name_of(heap, x) {
        Some(name) => Ok(NativeEnd::Returns(name)),
        None => throw(alloc, heap, Fault::NullPointer),
    }
}
