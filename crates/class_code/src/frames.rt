//! Frames (JVMS SE 8 §4.7.4).

ghost use Rattle.class_code.specs.Code.{frame_kind, in_units, linked_frame, local_kinds, stack_kinds};
ghost use Rattle.std.specs.Prelude.{◌≡◌, ◌++◌, IfOk, OnOk, map};

use class_constants::class_of;
use class_headers::ClassTable;
use class_linked::{Kind, LinkedFrame};
use jvm_class_types::{Frame, FrameType};
use kt_base::NoMemory;
use sqlite_items::Items;
use std::alloc::Global;

fn frame_kind(headers: &ClassTable, t: &FrameType) -> Kind
    ensures { result ≡ frame_kind headers.now t.now }
{
    match t {
        FrameType::Top => Kind::Top,
        FrameType::Integer => Kind::Int,
        FrameType::Long => Kind::Long,
        FrameType::Null => Kind::Null,
        FrameType::UninitializedThis => Kind::FreshThis,
        FrameType::Object(name) => Kind::Object(class_of(headers, name.as_bytes())),
        FrameType::Uninitialized(offset) => Kind::Fresh(*offset),
    }
}

/// Puts a kind into the units that it takes.
fn push_in_units(kinds: &mut Items<Kind>, kind: Kind) -> Result<(), NoMemory>
    ensures { OnOk result (kinds.new ≡ kinds.old ++ in_units kind) }
{
    kinds.push(kind)?;
    if matches!(kind, Kind::Long) {
        kinds.push(Kind::Top)?;
    }
    Ok(())
}

#[tactic(auto, using(class_constants::proofs::Growing::flat_grows))]
fn local_kinds(
    alloc: Global,
    headers: &ClassTable,
    types: &[FrameType],
) -> Result<Items<Kind>, NoMemory>
    ensures { IfOk result (λ kinds. kinds ≡ local_kinds headers.now types.now) }
{
    let mut kinds = Items::new(alloc);
    for t in types {
        push_in_units(&mut kinds, frame_kind(headers, t))?;
    }
    Ok(kinds)
}

fn kinds_of(alloc: Global, headers: &ClassTable, types: &[FrameType]) -> Result<Vec<Kind>, NoMemory>
    ensures { IfOk result (λ kinds. kinds.items ≡ map (frame_kind headers.now) types.now) }
{
    let mut kinds = Vec::new(alloc);
    for t in types {
        kinds.push(frame_kind(headers, t))?;
    }
    Ok(kinds)
}

/// The top of the stack first.
fn stack_kinds(
    alloc: Global,
    headers: &ClassTable,
    types: &[FrameType],
) -> Result<Items<Kind>, NoMemory>
    ensures { IfOk result (λ kinds. kinds ≡ stack_kinds headers.now types.now) }
{
    let mut kinds = kinds_of(alloc, headers, types)?;
    kinds.as_mut_slice().reverse();
    Ok(Items::from_vec(kinds))
}

fn linked_frame(alloc: Global, headers: &ClassTable, frame: &Frame) -> Result<LinkedFrame, NoMemory>
    ensures { IfOk result (λ made. made ≡ linked_frame headers.now frame.now) }
{
    let locals = local_kinds(alloc, headers, frame.locals.as_slice())?;
    let stack = stack_kinds(alloc, headers, frame.stack.as_slice())?;
    Ok(LinkedFrame {
        offset: frame.offset,
        locals,
        stack,
    })
}

/// The frames of a method, each class that they name by its number.
pub(crate) fn linked_frames(
    alloc: Global,
    headers: &ClassTable,
    frames: &[Frame],
) -> Result<Items<LinkedFrame>, NoMemory>
    ensures { IfOk result (λ made. made ≡ map (linked_frame headers.now) frames.now) }
{
    let mut made = Items::new(alloc);
    for frame in frames {
        made.push(linked_frame(alloc, headers, frame)?)?;
    }
    Ok(made)
}
