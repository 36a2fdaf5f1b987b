//! A method without code, called.

ghost use Rattle.mach_natives.specs.Rows as spec;
ghost use Rattle.mach_rows.specs.Asking.{Comes};
ghost use Rattle.std.specs.Prelude.{IfOk};

use crate::asking::asking_native;
use crate::boxes::box_native;
use crate::natives::Native;
use crate::objects::object_native;
use crate::sending::sending_native;
use crate::texts::text_native;
use kt_base::NoMemory;
use mach_rows::NativeEnd;
use mach_value::{Heap, Value};
use std::alloc::Global;

/// Does what a method without code does, which `row` says. The object of a method that has one is the first argument.
#[tactic(auto, unfolding(mach_rows::specs::Asking::Comes))]
pub fn native(
    alloc: Global,
    which: Native,
    heap: &mut Heap,
    arguments: &[Value],
) -> Result<NativeEnd, NoMemory>
    ensures { IfOk result (λ e. Comes (spec.row which heap.old arguments.now) heap.old e heap.new) }
{
    match which {
        Native::Text(which) => text_native(alloc, which, heap, arguments),
        Native::Box(which) => box_native(alloc, which, heap, arguments),
        Native::Object(which) => object_native(alloc, which, heap, arguments),
        Native::Asking(which) => asking_native(alloc, which, heap, arguments),
        Native::Sending(which) => sending_native(alloc, which, heap, arguments),
    }
}
