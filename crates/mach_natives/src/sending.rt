//! What goes to another coroutine.

ghost use Rattle.mach_natives.specs.Rows as spec;
ghost use Rattle.mach_rows.specs.Asking.{Comes};
ghost use Rattle.std.specs.Prelude.{IfOk};

use crate::arguments::argument;
use crate::natives::SendingNative;
use kt_base::NoMemory;
use mach_cells::{cells_fail, cells_launch, cells_resume};
use mach_rows::NativeEnd;
use mach_value::{Heap, Value};
use std::alloc::Global;

/// A method that hands a value to another coroutine.
pub fn sending_native(
    alloc: Global,
    which: SendingNative,
    heap: &mut Heap,
    arguments: &[Value],
) -> Result<NativeEnd, NoMemory>
    ensures { IfOk result (λ e. Comes (spec.sending_row which heap.old arguments.now) heap.old e heap.new) }
{
    let x = argument(arguments, 0);
    let y = argument(arguments, 1);
    match which {
        SendingNative::CellsLaunch => cells_launch(alloc, heap, x),
        SendingNative::CellsResume => cells_resume(alloc, heap, x, y),
        SendingNative::CellsFail => cells_fail(alloc, heap, x, y),
    }
}
