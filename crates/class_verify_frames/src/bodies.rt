//! A method whose code is looked at, and its instructions and frames by their offsets.

ghost use Rattle.class_supers.specs.Graph.{Ascends};
ghost use Rattle.class_verify_frames.specs.Views.{IsIndexed, body};
ghost use Rattle.class_verify_rules.specs.Bodies.{starting_at};
ghost use Rattle.std.specs.Prelude.{◌≡◌, ◌==◌, ℕ, IfOk, MatchOption, Some, find, map, option_copied, slice_get};

use class_linked::{Constant, Linked, LinkedCode, LinkedFrame, LinkedMethod};
use jvm_code::Instr;
use kt_base::NoMemory;
use sqlite_items::at;
use std::alloc::Global;

/// A method with its code, and the constant pool that its instructions mention.
#[derive(Clone, Copy)]
pub struct Body<'a> {
    pub program: &'a Linked,
    /// The number of the class that declares the method.
    pub class: usize,
    pub constants: &'a [Constant],
    pub method: &'a LinkedMethod,
    pub code: &'a LinkedCode,
    /// The offset of each instruction.
    pub starts: &'a [u32],
    /// The offset of each frame.
    pub frame_starts: &'a [u32],
}

/// The offset of each instruction.
pub fn starts_of(alloc: Global, code: &LinkedCode) -> Result<Vec<u32>, NoMemory>
    ensures { IfOk result (λ starts. starts.items ≡ map (λ i. i.0) code.now.instructions) }
{
    let mut starts = Vec::new(alloc);
    for instruction in code.instructions.as_slice() {
        starts.push(instruction.0)?;
    }
    Ok(starts)
}

/// The offset of each frame.
pub fn frame_starts_of(alloc: Global, code: &LinkedCode) -> Result<Vec<u32>, NoMemory>
    ensures { IfOk result (λ starts. starts.items ≡ map (λ f. f.offset) code.now.frames) }
{
    let mut starts = Vec::new(alloc);
    for frame in code.frames.as_slice() {
        starts.push(frame.offset)?;
    }
    Ok(starts)
}

/// Where an offset stands among several that ascend.
fn place_of(starts: &[u32], offset: u32) -> Option<usize>
    requires { Ascends 0 starts.now }
    ensures { MatchOption result ((k : ℕ) → slice_get starts.now k ≡ Some offset →
        ⊥) (λ place. slice_get starts.now place ≡ Some offset) }
{
    match starts.binary_search(&offset) {
        Ok(place) => Some(place),
        Err(_) => None,
    }
}

/// The place of the instruction that starts at an offset.
pub fn place_at(method: &Body, offset: u32) -> Option<usize>
    requires { IsIndexed method.now }
    ensures { MatchOption result ((k : ℕ) → slice_get method.now.starts.now k ≡ Some offset →
        ⊥) (λ place. slice_get method.now.starts.now place ≡ Some offset) }
{
    place_of(method.starts, offset)
}

/// The instruction that starts at an offset.
pub fn instruction_at<'a>(method: &Body<'a>, offset: u32) -> Option<&'a (u32, Instr)>
    requires { IsIndexed method.now }
    ensures { option_copied result ≡ starting_at (body method.now) offset }
{
    match place_of(method.starts, offset) {
        None => None,
        Some(place) => at(method.code.instructions.as_slice(), place),
    }
}

/// The frame that a class file has for an offset.
pub fn frame_at<'a>(method: &Body<'a>, offset: u32) -> Option<&'a LinkedFrame>
    requires { IsIndexed method.now }
    ensures { option_copied result ≡ find (λ f. f.offset == offset) method.now.code.now.frames }
{
    match place_of(method.frame_starts, offset) {
        None => None,
        Some(place) => at(method.code.frames.as_slice(), place),
    }
}
