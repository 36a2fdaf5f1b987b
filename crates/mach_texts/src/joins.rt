//! `concat`.

ghost use Rattle.mach_rows.specs.Courses.{after, ended};
ghost use Rattle.mach_rows.specs.Texts as spec;
ghost use Rattle.std.specs.Prelude.{◌≡◌, ◌++◌, ◌+◌, nat_lt, length, IfOk, OnOk};

use kt_base::{NoMemory, Text16};
use mach_rows::reading::text_of;
use mach_rows::{Fault, NativeEnd, give_text, throw};
use mach_value::{Heap, Value};
use std::alloc::Global;

/// The number of units that a text has at most.
const LONGEST_TEXT: usize = 16_777_216;

/// Whether two texts are too long to be joined.
fn are_too_long(s: &[u16], t: &[u16]) -> bool
    ensures { result ≡ nat_lt spec.longest_text (length s.now + length t.now) }
{
    LONGEST_TEXT < s.len() + t.len()
}

/// The units of both.
fn joined(alloc: Global, s: &[u16], t: &[u16]) -> Result<Text16, NoMemory>
    ensures { IfOk result (λ both. both ≡ s.now ++ t.now) }
{
    let mut units = Vec::with_capacity(alloc, s.len() + t.len())?;
    units.extend_from_slice(s)?;
    units.extend_from_slice(t)?;
    Ok(Text16::from_units(units))
}

/// `concat(String, String)`: the units of both, in time by their number.
pub fn text_concat(
    alloc: Global,
    heap: &mut Heap,
    x: Value,
    y: Value,
) -> Result<NativeEnd, NoMemory>
    ensures end { IfOk result (λ e. e ≡ ended (spec.text_concat heap.old x y) heap.old) }
    ensures heap { OnOk result (heap.new ≡ after (spec.text_concat heap.old x y) heap.old) }
{
    match text_of(heap, x) {
        Some(s) => match text_of(heap, y) {
            Some(t) => {
                if are_too_long(s.units(), t.units()) {
                    return throw(alloc, heap, Fault::TextTooLong);
                }
                let both = joined(alloc, s.units(), t.units())?;
                give_text(heap, both)
            }
            None => throw(alloc, heap, Fault::NullPointer),
        },
        None => throw(alloc, heap, Fault::NullPointer),
    }
}
