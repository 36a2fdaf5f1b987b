//! What comes into a heap.

ghost use Rattle.mach_value.specs.Exports.{IsLump};
ghost use Rattle.mach_value.specs.Imported.{imported, imported_value};
ghost use Rattle.std.specs.Prelude.{◌≡◌, IfOk, OnErr, OnOk};

use crate::heaps::Heap;
use crate::importing::{box_top, build, take_top};
use crate::values::Value;
use kt_base::{Lump, NoMemory};
use std::alloc::Global;

/// Makes the objects of a lump, behind those that are there, and answers the lump's value.
///
/// A number that is the whole lump is boxed; one in a field stays a number, since the heap doesn't know the classes.
/// Where memory runs out the heap is as before.
pub fn import(alloc: Global, heap: &mut Heap, lump: &Lump) -> Result<Value, NoMemory>
    ensures heap { OnOk result (heap.new ≡ imported heap.old lump.now) }
    ensures value { IfOk result (λ x. x ≡ imported_value heap.old lump.now) }
    ensures lump { IfOk result (λ x. IsLump heap.new.objects x lump.now) }
    ensures err { OnErr result (heap.new ≡ heap.old) }
{
    let first = heap.objects.next();
    let mut built = build(alloc, first, lump.nodes())?;
    let top = take_top(&mut built.fields);
    let value = box_top(first, &mut built.objects, top)?;
    heap.objects.append(built.objects)?;
    Ok(value)
}
