//! One pass over a method: the first instruction that isn't typed.

ghost use Rattle.class_verify_flow.specs.Checks.{Checked, Leads, MistypedFirst, TypedAt, when};
ghost use Rattle.class_verify_frames.specs.Views.{IsIndexed, body, frame};
ghost use Rattle.class_verify_rules.specs.Bodies.{instruction};
ghost use Rattle.class_verify_rules.specs.Frames.{before, declared_at, or_else};
ghost use Rattle.std.specs.Prelude.{◌≡◌, ◌↔◌, ◌<◌, ℕ, IfOk, IsTrue, MatchOption, Some, length, option_map};

use crate::flow::{declared_frame, handlers_fit, may_flow_on, meets_all};
use crate::targets::{may_go_on, targets_of};
use class_verify_frames::frames::{entry_frame, shown_frame};
use class_verify_frames::operands::is_within;
use class_verify_frames::{Body, Frame};
use class_verify_steps::step;
use jvm_code::Instr;
use kt_base::NoMemory;
use sqlite_items::at;
use std::alloc::Global;

/// Whether what is behind an instruction may be reached from it, with this frame.
fn leads_well(
    alloc: Global,
    method: &Body,
    place: usize,
    instr: &Instr,
    held: &Frame,
) -> Result<bool, NoMemory>
    requires indexed { IsIndexed method.now }
    requires inside { place < length method.now.code.now.instructions }
    ensures { IfOk result (λ fine. IsTrue fine ↔ Leads (body method.now) place instr.now (frame held.now)) }
{
    let targets = targets_of(alloc, instr)?;
    if !meets_all(method, held, targets.as_slice()) {
        return Ok(false);
    }
    if !may_go_on(instr) {
        return Ok(true);
    }
    Ok(may_flow_on(method, held, place))
}

/// Whether the instruction of a place is typed under the frame before it; the frame is then the one behind it.
fn check_instruction(
    alloc: Global,
    method: &Body,
    place: usize,
    instruction: &(u32, Instr),
    held: &mut Frame,
) -> Result<bool, NoMemory>
    requires indexed { IsIndexed method.now }
    requires inside { place < length method.now.code.now.instructions }
    ensures { IfOk result (λ fine.
        Checked (body method.now) place instruction.now (frame held.old) fine (frame held.new)) }
{
    if !handlers_fit(method, held, instruction.0) {
        return Ok(false);
    }
    if !step(method, held, instruction.0, &instruction.1)? {
        return Ok(false);
    }
    if !is_within(&held.stack, method.code.max_stack) {
        return Ok(false);
    }
    if !leads_well(alloc, method, place, &instruction.1, held)? {
        return Ok(false);
    }
    Ok(true)
}

/// The frame before the first instruction.
fn first_frame(alloc: Global, method: &Body) -> Result<Frame, NoMemory>
    requires { IsIndexed method.now }
    ensures { IfOk result (λ f. before (body method.now) 0 ≡ Some (frame f)) }
{
    match at(method.code.instructions.as_slice(), 0) {
        None => entry_frame(alloc, method),
        Some(first) => match declared_frame(method, first.0) {
            None => entry_frame(alloc, method),
            Some(given) => shown_frame(alloc, given, method.code.max_locals as usize),
        },
    }
}

/// The frame before an instruction: the one that is given, or else what the instruction above it leaves.
fn next_frame(
    alloc: Global,
    method: &Body,
    place: usize,
    goes_on_here: bool,
    held: Frame,
) -> Result<Option<Frame>, NoMemory>
    requires { IsIndexed method.now }
    ensures { IfOk result (λ next. option_map frame next
        ≡ or_else (declared_at (body method.now) (instruction (body method.now) place)) (when goes_on_here (frame held))) }
{
    match at(method.code.instructions.as_slice(), place) {
        None => Ok(left(goes_on_here, held)),
        Some(next) => match declared_frame(method, next.0) {
            None => Ok(left(goes_on_here, held)),
            Some(given) => {
                let shown = shown_frame(alloc, given, method.code.max_locals as usize)?;
                Ok(Some(shown))
            }
        },
    }
}

fn left(goes_on_here: bool, held: Frame) -> Option<Frame>
    ensures { option_map frame result ≡ when goes_on_here (frame held) }
{
    if goes_on_here { Some(held) } else { None }
}

fn instruction_of<'a>(method: &Body<'a>, place: usize) -> &'a (u32, Instr)
    requires { place < length method.now.code.now.instructions }
    ensures { instruction (body method.now) place ≡ Some result.now }
{
    match at(method.code.instructions.as_slice(), place) {
        None => unreachable!(),
        Some(found) => found,
    }
}

/// The place of the first instruction that isn't typed under the frame before it, or has none: `None` exactly where
/// each has one, and is typed.
pub fn first_mistyped(alloc: Global, method: &Body) -> Result<Option<usize>, NoMemory>
    requires { IsIndexed method.now }
    ensures { IfOk result (λ found. MatchOption found
        ((place : ℕ) → TypedAt (body method.now) place) (MistypedFirst (body method.now))) }
{
    let mut before = Some(first_frame(alloc, method)?);
    for place in 0..method.code.instructions.len() {
        let instruction = instruction_of(method, place);
        match before {
            None => return Ok(Some(place)),
            Some(mut held) => {
                if !check_instruction(alloc, method, place, instruction, &mut held)? {
                    return Ok(Some(place));
                }
                let on = may_go_on(&instruction.1);
                before = next_frame(alloc, method, place + 1, on, held)?;
            }
        }
    }
    Ok(None)
}
