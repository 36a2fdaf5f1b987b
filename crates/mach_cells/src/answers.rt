//! What an answer leaves in a heap.

ghost use Rattle.mach_cells.specs.Answers.{with_cell};
ghost use Rattle.mach_value.specs.Heaps.{address_behind};
ghost use Rattle.mach_value.specs.declared.values.Value.TheVariants.{Ref};
ghost use Rattle.std.specs.Prelude.{◌≡◌, IfOk, OnOk};

use kt_base::NoMemory;
use mach_rows::make;
use mach_value::{Heap, Object, Value};

/// The cell of a number that was drawn, which the coroutine may await.
pub fn drawn_cell(heap: &mut Heap, number: u32) -> Result<Value, NoMemory>
    ensures value { IfOk result (λ x. x ≡ Ref (address_behind heap.old.objects)) }
    ensures heap { OnOk result (heap.new ≡ with_cell number heap.old) }
{
    heap.awaitable.push(number)?;
    Ok(Value::Ref(make(heap, Object::Cell(number))?))
}
