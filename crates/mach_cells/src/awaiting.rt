//! What a coroutine awaits.

ghost use Rattle.mach_rows.specs.Asking as spec;
ghost use Rattle.mach_rows.specs.Courses.{after, ended};
ghost use Rattle.mach_value.specs.declared.heaps.Heap.{Heap};
ghost use Rattle.std.specs.List.{list_any};
ghost use Rattle.std.specs.Prelude.{◌≡◌, ◌==◌, ◌<◌, length, position, IfOk, IfSome, OnOk};

use crate::asks::{asking_fault, is_either_null};
use kt_base::NoMemory;
use mach_rows::reading::{as_reference, cell_of};
use mach_rows::{Fault, NativeEnd, throw};
use mach_value::{Heap, Note, Value};
use sqlite_items::Items;
use std::alloc::Global;

/// Whether the coroutine may await a cell.
fn may_await(cells: &[u32], cell: u32) -> bool
    ensures { result ≡ list_any (λ d. d == cell) cells.now }
{
    cells.iter().any(|each| *each == cell)
}

/// The first place at which a cell stands.
fn place_of(cells: &[u32], cell: u32) -> Option<usize>
    ensures place { result ≡ position (λ d. d == cell) cells.now }
    ensures within { IfSome result (λ at. at < length cells.now) }
{
    cells.iter().position(|each| *each == cell)
}

/// Takes the first of a number away.
fn remove_first(cells: &mut Items<u32>, cell: u32)
    ensures { cells.new ≡ spec.without cell cells.old }
{
    match place_of(cells.as_slice(), cell) {
        Some(at) => {
            let _removed = cells.remove(at);
        }
        None => {}
    }
}

/// Notes that the coroutine is to wait for a cell, once its last frame is gone.
fn note(heap: &mut Heap, cell: u32, continuation: u64)
    ensures { heap.new ≡ spec.noting cell continuation heap.old }
{
    heap.note = Some(Note { cell, continuation });
    remove_first(&mut heap.awaitable, cell);
}

/// Awaits a cell, where the coroutine drew it and hasn't awaited it yet.
fn wait(alloc: Global, heap: &mut Heap, continuation: u64, cell: u32) -> Result<NativeEnd, NoMemory>
    ensures end { IfOk result (λ e. e ≡ ended (spec.waits heap.old continuation cell) heap.old) }
    ensures heap { OnOk result (heap.new ≡ after (spec.waits heap.old continuation cell) heap.old) }
{
    if may_await(heap.awaitable.as_slice(), cell) {
        note(heap, cell, continuation);
        Ok(NativeEnd::Returns(Value::Ref(1)))
    } else {
        throw(alloc, heap, Fault::NotWaiting)
    }
}

/// `await(Cell, ContinuationImpl)`: notes the cell and the continuation, and gives what stands for a suspended call.
pub fn cells_await(
    alloc: Global,
    heap: &mut Heap,
    x: Value,
    y: Value,
) -> Result<NativeEnd, NoMemory>
    ensures end { IfOk result (λ e. e ≡ ended (spec.cells_await heap.old x y) heap.old) }
    ensures heap { OnOk result (heap.new ≡ after (spec.cells_await heap.old x y) heap.old) }
{
    match asking_fault(is_either_null(x, y), heap) {
        Some(fault) => throw(alloc, heap, fault),
        None => match cell_of(heap, x) {
            Some(cell) => match as_reference(y) {
                Some(continuation) => wait(alloc, heap, continuation, cell),
                None => throw(alloc, heap, Fault::NullPointer),
            },
            None => throw(alloc, heap, Fault::NullPointer),
        },
    }
}

/// `suspended()`: what stands for a suspended call.
pub fn cells_suspended() -> NativeEnd
    ensures { (heap : Heap) → result ≡ ended spec.cells_suspended heap }
{
    NativeEnd::Returns(Value::Ref(1))
}
