//! Objects.

ghost use Rattle.mach_natives.specs.Rows as spec;
ghost use Rattle.mach_rows.specs.Courses.{after, ended};
ghost use Rattle.std.specs.Prelude.{◌≡◌, IfOk, OnOk};

use crate::arguments::argument;
use crate::natives::ObjectNative;
use kt_base::NoMemory;
use mach_objects::{
    continuation_init, entry_equals, entry_init, entry_to_string, no_method, object_init,
    throwable_get_message, throwable_init_message, unit_equals, unit_get, unit_to_string,
};
use mach_rows::NativeEnd;
use mach_value::{Heap, Value};
use std::alloc::Global;

/// A method of objects.
pub fn object_native(
    alloc: Global,
    which: ObjectNative,
    heap: &mut Heap,
    arguments: &[Value],
) -> Result<NativeEnd, NoMemory>
    ensures end { IfOk result (λ e. e ≡ ended (spec.object_row which heap.old arguments.now) heap.old) }
    ensures heap { OnOk result (heap.new ≡ after (spec.object_row which heap.old arguments.now) heap.old) }
{
    let x = argument(arguments, 0);
    let y = argument(arguments, 1);
    let z = argument(arguments, 2);
    match which {
        ObjectNative::ObjectInit => object_init(alloc, heap, x),
        ObjectNative::ObjectEquals => no_method(alloc, heap),
        ObjectNative::ObjectToString => no_method(alloc, heap),
        ObjectNative::ThrowableInit => object_init(alloc, heap, x),
        ObjectNative::ThrowableInitMessage => throwable_init_message(alloc, heap, x, y),
        ObjectNative::ThrowableGetMessage => throwable_get_message(alloc, heap, x),
        ObjectNative::UnitGet => Ok(unit_get()),
        ObjectNative::UnitEquals => Ok(unit_equals(y)),
        ObjectNative::UnitToString => unit_to_string(alloc, heap),
        ObjectNative::EntryInit => entry_init(alloc, heap, x, y, z),
        ObjectNative::EntryEquals => entry_equals(alloc, heap, x, y),
        ObjectNative::EntryToString => entry_to_string(alloc, heap, x),
        ObjectNative::ContinuationInit => continuation_init(alloc, heap, x, y),
    }
}
