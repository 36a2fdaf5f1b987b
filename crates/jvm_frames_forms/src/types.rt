//! Types in frames: the same type, and copies.

ghost use Rattle.jvm_maps.specs.Types.{same_type, same_types};
ghost use Rattle.std.specs.Prelude.{◌≡◌, IfOk};

use jvm_class_types::FrameType;
use kt_base::NoMemory;
use std::alloc::Global;

/// Whether these are the same types, one by one.
pub fn are_same(types: &[FrameType], others: &[FrameType]) -> bool
    ensures { result ≡ same_types types.now others.now }
{
    types == others
}

/// A copy of a type.
pub fn copy_of(frame_type: &FrameType) -> Result<FrameType, NoMemory>
    ensures { IfOk result (λ copy. copy ≡ frame_type.now) }
{
    Ok(match frame_type {
        FrameType::Top => FrameType::Top,
        FrameType::Integer => FrameType::Integer,
        FrameType::Long => FrameType::Long,
        FrameType::Null => FrameType::Null,
        FrameType::UninitializedThis => FrameType::UninitializedThis,
        FrameType::Object(name) => FrameType::Object(name.clone()?),
        FrameType::Uninitialized(at) => FrameType::Uninitialized(*at),
    })
}

/// A copy of each of these types.
pub fn copies_of(alloc: Global, types: &[FrameType]) -> Result<Vec<FrameType>, NoMemory>
    ensures { IfOk result (λ copies. copies.items ≡ types.now) }
{
    let mut copies = Vec::with_capacity(alloc, types.len())?;
    for frame_type in types {
        copies.push(copy_of(frame_type)?)?;
    }
    Ok(copies)
}
