//! Boxes.

ghost use Rattle.mach_natives.specs.Rows as spec;
ghost use Rattle.mach_rows.specs.Courses.{after, ended};
ghost use Rattle.std.specs.Prelude.{◌≡◌, IfOk, OnOk};

use crate::arguments::argument;
use crate::natives::BoxNative;
use kt_base::NoMemory;
use mach_boxes::{
    boolean_equals, boolean_to_string, boolean_value, boolean_value_of, character_equals,
    character_to_string, character_value, character_value_of, integer_equals, integer_to_string,
    integer_value, integer_value_of, long_equals, long_to_string, long_value, long_value_of,
};
use mach_rows::NativeEnd;
use mach_value::{Heap, Value};
use std::alloc::Global;

/// A method of boxes.
pub fn box_native(
    alloc: Global,
    which: BoxNative,
    heap: &mut Heap,
    arguments: &[Value],
) -> Result<NativeEnd, NoMemory>
    ensures end { IfOk result (λ e. e ≡ ended (spec.box_row which heap.old arguments.now) heap.old) }
    ensures heap { OnOk result (heap.new ≡ after (spec.box_row which heap.old arguments.now) heap.old) }
{
    let x = argument(arguments, 0);
    let y = argument(arguments, 1);
    match which {
        BoxNative::IntegerValueOf => integer_value_of(alloc, heap, x),
        BoxNative::IntegerValue => integer_value(alloc, heap, x),
        BoxNative::IntegerEquals => integer_equals(alloc, heap, x, y),
        BoxNative::IntegerToString => integer_to_string(alloc, heap, x),
        BoxNative::LongValueOf => long_value_of(alloc, heap, x),
        BoxNative::LongValue => long_value(alloc, heap, x),
        BoxNative::LongEquals => long_equals(alloc, heap, x, y),
        BoxNative::LongToString => long_to_string(alloc, heap, x),
        BoxNative::BooleanValueOf => boolean_value_of(alloc, heap, x),
        BoxNative::BooleanValue => boolean_value(alloc, heap, x),
        BoxNative::BooleanEquals => boolean_equals(alloc, heap, x, y),
        BoxNative::BooleanToString => boolean_to_string(alloc, heap, x),
        BoxNative::CharacterValueOf => character_value_of(alloc, heap, x),
        BoxNative::CharacterValue => character_value(alloc, heap, x),
        BoxNative::CharacterEquals => character_equals(alloc, heap, x, y),
        BoxNative::CharacterToString => character_to_string(alloc, heap, x),
    }
}
