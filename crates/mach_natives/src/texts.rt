//! Strings.

ghost use Rattle.mach_natives.specs.Rows as spec;
ghost use Rattle.mach_rows.specs.Courses.{after, ended};
ghost use Rattle.std.specs.Prelude.{◌≡◌, IfOk, OnOk};

use crate::arguments::argument;
use crate::natives::TextNative;
use kt_base::NoMemory;
use mach_rows::NativeEnd;
use mach_texts::{
    string_char_at, string_equals, string_length, string_substring, string_to_string, text_concat,
    text_of_boolean, text_of_character, text_of_int, text_of_long,
};
use mach_value::{Heap, Value};
use std::alloc::Global;

/// A method of strings.
pub fn text_native(
    alloc: Global,
    which: TextNative,
    heap: &mut Heap,
    arguments: &[Value],
) -> Result<NativeEnd, NoMemory>
    ensures end { IfOk result (λ e. e ≡ ended (spec.text_row which heap.old arguments.now) heap.old) }
    ensures heap { OnOk result (heap.new ≡ after (spec.text_row which heap.old arguments.now) heap.old) }
{
    let x = argument(arguments, 0);
    let y = argument(arguments, 1);
    let z = argument(arguments, 2);
    match which {
        TextNative::StringLength => string_length(alloc, heap, x),
        TextNative::StringCharAt => string_char_at(alloc, heap, x, y),
        TextNative::StringSubstring => string_substring(alloc, heap, x, y, z),
        TextNative::StringEquals => string_equals(alloc, heap, x, y),
        TextNative::StringToString => string_to_string(alloc, heap, x),
        TextNative::Concat => text_concat(alloc, heap, x, y),
        TextNative::OfInt => text_of_int(alloc, heap, x),
        TextNative::OfLong => text_of_long(alloc, heap, x),
        TextNative::OfBoolean => text_of_boolean(alloc, heap, x),
        TextNative::OfCharacter => text_of_character(alloc, heap, x),
    }
}
