//! What a coroutine asks.

ghost use Rattle.mach_natives.specs.Rows as spec;
ghost use Rattle.mach_rows.specs.Courses.{after, ended};
ghost use Rattle.std.specs.Prelude.{◌≡◌, IfOk, OnOk};

use crate::arguments::argument;
use crate::natives::AskingNative;
use kt_base::NoMemory;
use mach_cells::{cells_await, cells_make, cells_suspended, out_println, tick};
use mach_rows::NativeEnd;
use mach_value::{Heap, Value};
use std::alloc::Global;

/// A method that may ask.
pub fn asking_native(
    alloc: Global,
    which: AskingNative,
    heap: &mut Heap,
    arguments: &[Value],
) -> Result<NativeEnd, NoMemory>
    ensures end { IfOk result (λ e. e ≡ ended (spec.asking_row which heap.old arguments.now) heap.old) }
    ensures heap { OnOk result (heap.new ≡ after (spec.asking_row which heap.old arguments.now) heap.old) }
{
    let x = argument(arguments, 0);
    let y = argument(arguments, 1);
    match which {
        AskingNative::OutPrintln => out_println(alloc, heap, x),
        AskingNative::Tick => Ok(tick()),
        AskingNative::CellsMake => cells_make(alloc, heap),
        AskingNative::CellsAwait => cells_await(alloc, heap, x, y),
        AskingNative::CellsSuspended => Ok(cells_suspended()),
    }
}
