//! What goes to another coroutine.

ghost use Rattle.mach_rows.specs.Asking as spec;
ghost use Rattle.mach_rows.specs.Asking.{Comes, sends};
ghost use Rattle.std.specs.Prelude.{IfOk};

use crate::asks::{asking_fault, is_either_null, is_null};
use kt_base::NoMemory;
use mach_rows::reading::cell_of;
use mach_rows::{Fault, NativeEnd, Sending, throw};
use mach_value::{ExportErr, Heap, Value, export};
use std::alloc::Global;

/// Asks about the lump of a value; throws where it has none.
fn send(alloc: Global, heap: &mut Heap, how: Sending, x: Value) -> Result<NativeEnd, NoMemory>
    ensures { IfOk result (λ e. Comes (sends how x) heap.old e heap.new) }
{
    match export(alloc, heap, x) {
        Ok(lump) => Ok(NativeEnd::Asks(how.event(lump))),
        Err(ExportErr::NotShareable) => throw(alloc, heap, Fault::NotShareable),
        Err(ExportErr::NoMemory) => Err(NoMemory),
    }
}

/// `launch(Function1)`: asks to start a coroutine.
pub fn cells_launch(alloc: Global, heap: &mut Heap, x: Value) -> Result<NativeEnd, NoMemory>
    ensures { IfOk result (λ e. Comes (spec.cells_launch heap.old x) heap.old e heap.new) }
{
    match asking_fault(is_null(x), heap) {
        Some(fault) => throw(alloc, heap, fault),
        None => send(alloc, heap, Sending::Launch, x),
    }
}

/// `resume(Cell, Object)`: asks to give a cell its outcome.
pub fn cells_resume(
    alloc: Global,
    heap: &mut Heap,
    x: Value,
    y: Value,
) -> Result<NativeEnd, NoMemory>
    ensures { IfOk result (λ e. Comes (spec.cells_resume heap.old x y) heap.old e heap.new) }
{
    let fault = asking_fault(is_null(x), heap);
    match fault {
        Some(fault) => throw(alloc, heap, fault),
        None => match cell_of(heap, x) {
            Some(cell) => send(alloc, heap, Sending::Value(cell), y),
            None => throw(alloc, heap, Fault::NullPointer),
        },
    }
}

/// `fail(Cell, Throwable)`: asks to have a throwable thrown at who awaits a cell.
pub fn cells_fail(alloc: Global, heap: &mut Heap, x: Value, y: Value) -> Result<NativeEnd, NoMemory>
    ensures { IfOk result (λ e. Comes (spec.cells_fail heap.old x y) heap.old e heap.new) }
{
    match asking_fault(is_either_null(x, y), heap) {
        Some(fault) => throw(alloc, heap, fault),
        None => match cell_of(heap, x) {
            Some(cell) => send(alloc, heap, Sending::Thrown(cell), y),
            None => throw(alloc, heap, Fault::NullPointer),
        },
    }
}
