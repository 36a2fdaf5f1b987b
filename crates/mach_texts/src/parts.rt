//! Parts of strings: `charAt`, `substring`.

ghost use Rattle.mach_rows.specs.Courses.{after, as_int, ended, given, held_in, text_in};
ghost use Rattle.mach_rows.specs.Texts as spec;
ghost use Rattle.std.specs.Prelude.{◌≡◌, ◌-◌, ◌≤◌, ℕ, List, None, Some, pos, length, drop, take, true, false};
ghost use Rattle.std.specs.Prelude.{slice_get, IfOk, IfSome, OnOk};

use kt_base::{NoMemory, Text16};
use mach_rows::reading::{as_int, text_of};
use mach_rows::{Fault, NativeEnd, give_text, throw};
use mach_value::{Heap, Value};
use std::alloc::Global;

/// An index that isn't below zero.
fn index_of(number: i32) -> Option<usize>
    ensures some { IfSome result (λ n. number ≡ pos n) }
    ensures units { result ≡ None → (xs : List ℕ) → spec.at_index xs number ≡ None }
    ensures outside { result ≡ None → (count : ℕ) → spec.is_outside count number ≡ true }
{
    if number < 0 {
        return None;
    }
    Some(number as usize)
}

/// The unit at an index.
fn at_index(units: &[u16], at: i32) -> Option<u16>
    ensures { result ≡ spec.at_index units.now at }
{
    match index_of(at) {
        Some(n) => units.get(n).copied(),
        None => None,
    }
}

/// The unit at an index, or that there is none.
fn give_unit(
    alloc: Global,
    heap: &mut Heap,
    at: i32,
    found: Option<u16>,
) -> Result<NativeEnd, NoMemory>
    ensures end { IfOk result (λ e. e ≡ ended (spec.found_unit at found) heap.old) }
    ensures heap { OnOk result (heap.new ≡ after (spec.found_unit at found) heap.old) }
{
    match found {
        Some(unit) => Ok(NativeEnd::Returns(Value::Int(unit as i32))),
        None => throw(alloc, heap, Fault::TextIndex(at)),
    }
}

/// `charAt(int)` of a string: its unit at an index.
pub fn string_char_at(
    alloc: Global,
    heap: &mut Heap,
    x: Value,
    at: Value,
) -> Result<NativeEnd, NoMemory>
    ensures end { IfOk result (λ e. e ≡ ended (spec.string_char_at heap.old x at) heap.old) }
    ensures heap { OnOk result (heap.new ≡ after (spec.string_char_at heap.old x at) heap.old) }
{
    match text_of(heap, x) {
        Some(text) => match as_int(at) {
            Some(i) => {
                let found = at_index(text.units(), i);
                give_unit(alloc, heap, i, found)
            }
            None => throw(alloc, heap, Fault::NullPointer),
        },
        None => throw(alloc, heap, Fault::NullPointer),
    }
}

/// A bound that is in a text of so many units.
fn bound_of(count: usize, number: i32) -> Option<usize>
    ensures some { IfSome result (λ k. number ≡ pos k) }
    ensures within { IfSome result (λ k. k ≤ count) }
    ensures inside { IfSome result (λ k. spec.is_outside count number ≡ false) }
    ensures none { result ≡ None → spec.is_outside count number ≡ true }
{
    match index_of(number) {
        Some(k) => { if count < k { None } else { Some(k) } }
        None => None,
    }
}

/// The units from a bound to a later one.
fn units_between(alloc: Global, t: &[u16], start: usize, end: usize) -> Result<Text16, NoMemory>
    requires order { start ≤ end }
    requires within { end ≤ length t.now }
    ensures { IfOk result (λ units. units ≡ take (end - start) (drop start t.now)) }
{
    Ok(Text16::from_units(Vec::from_slice(alloc, &t[start..end])?))
}

/// The part of a text between two bounds, or the bound that is told.
fn part(alloc: Global, text: &Text16, start: i32, end: i32) -> Result<Result<Text16, i32>, NoMemory>
    ensures { IfOk result (λ found. found ≡ spec.part text.now start end) }
{
    let units = text.units();
    match bound_of(units.len(), start) {
        Some(first) => match bound_of(units.len(), end) {
            Some(last) => {
                if last < first {
                    return Ok(Err(start));
                }
                Ok(Ok(units_between(alloc, units, first, last)?))
            }
            None => Ok(Err(end)),
        },
        None => Ok(Err(start)),
    }
}

/// A part of a text, or that a bound is none.
fn give_part(
    alloc: Global,
    heap: &mut Heap,
    found: Result<Text16, i32>,
) -> Result<NativeEnd, NoMemory>
    ensures end { IfOk result (λ e. e ≡ ended (spec.part_course found) heap.old) }
    ensures heap { OnOk result (heap.new ≡ after (spec.part_course found) heap.old) }
{
    match found {
        Ok(text) => give_text(heap, text),
        Err(bound) => throw(alloc, heap, Fault::TextIndex(bound)),
    }
}

/// `substring(int, int)` of a string: the units from the first bound to the second.
pub fn string_substring(
    alloc: Global,
    heap: &mut Heap,
    x: Value,
    start: Value,
    end: Value,
) -> Result<NativeEnd, NoMemory>
    ensures end { IfOk result (λ e. e ≡ ended (spec.string_substring heap.old x start end) heap.old) }
    ensures heap { OnOk result (heap.new ≡ after (spec.string_substring heap.old x start end) heap.old) }
{
    match text_of(heap, x) {
        Some(text) => match as_int(start) {
            Some(i) => match as_int(end) {
                Some(j) => {
                    let found = part(alloc, text, i, j)?;
                    give_part(alloc, heap, found)
                }
                None => throw(alloc, heap, Fault::NullPointer),
            },
            None => throw(alloc, heap, Fault::NullPointer),
        },
        None => throw(alloc, heap, Fault::NullPointer),
    }
}
