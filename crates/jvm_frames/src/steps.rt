//! What a written frame stands for, by the locals of the frame before.

ghost use Rattle.jvm_frames.specs.StepSeen.{step_seen};
ghost use Rattle.jvm_maps.specs.Frames.{step};
ghost use Rattle.std.specs.Prelude.{◌≡◌, ◌-◌, ◌∷◌, ◌++◌, [], length, take, IfOk};

use jvm_class_types::FrameType;
use jvm_frames_forms::types::copies_of;
use kt_base::NoMemory;
use std::alloc::Global;

/// The distance from the frame before, and the types.
#[derive(Debug, Drop)]
pub struct Step {
    pub delta: u16,
    pub locals: Vec<FrameType>,
    pub stack: Vec<FrameType>,
}

/// The same locals, and an empty stack.
pub fn same(alloc: Global, before: &[FrameType], delta: u16) -> Result<Step, NoMemory>
    ensures { IfOk result (λ s. step_seen s ≡ step delta before.now []) }
{
    let locals = copies_of(alloc, before)?;
    Ok(Step {
        delta,
        locals,
        stack: Vec::new(alloc),
    })
}

/// The same locals, and one type on the stack.
pub fn with_one(
    alloc: Global,
    before: &[FrameType],
    delta: u16,
    frame_type: FrameType,
) -> Result<Step, NoMemory>
    ensures { IfOk result (λ s. step_seen s ≡ step delta before.now (frame_type ∷ [])) }
{
    let mut stack = Vec::new(alloc);
    stack.push(frame_type)?;
    let locals = copies_of(alloc, before)?;
    Ok(Step {
        delta,
        locals,
        stack,
    })
}

/// The locals without the last, so many of them, and an empty stack.
pub fn chopped(alloc: Global, before: &[FrameType], count: u8, delta: u16) -> Result<Step, NoMemory>
    ensures { IfOk result (λ s. step_seen s ≡ step delta (take (length before.now - count) before.now) []) }
{
    let kept = before.len().saturating_sub(count as usize);
    let locals = copies_of(alloc, &before[..kept])?;
    Ok(Step {
        delta,
        locals,
        stack: Vec::new(alloc),
    })
}

/// The locals and more behind them, and an empty stack.
pub fn extended(
    alloc: Global,
    before: &[FrameType],
    delta: u16,
    more: Vec<FrameType>,
) -> Result<Step, NoMemory>
    ensures { IfOk result (λ s. step_seen s ≡ step delta (before.now ++ more.items) []) }
{
    let mut locals = copies_of(alloc, before)?;
    let mut more = more;
    locals.append(&mut more)?;
    Ok(Step {
        delta,
        locals,
        stack: Vec::new(alloc),
    })
}
