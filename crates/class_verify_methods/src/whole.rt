//! A method as a whole, and the first offset at which a rule fails.

ghost use Rattle.class_supers.specs.Graph.{Ascends};
ghost use Rattle.class_verify_frames.specs.Views.{IsIndexed, body};
ghost use Rattle.class_verify_methods.specs.Faults.{Least, made_body};
ghost use Rattle.class_verify_rules.specs.Bodies.{arguments, instruction};
ghost use Rattle.class_verify_rules.specs.Frames.{FrameFits, declared, entry};
ghost use Rattle.class_verify_rules.specs.Kinds.{spread};
ghost use Rattle.class_verify_rules.specs.Typing.{IsThere, WhereSome};
ghost use Rattle.class_verify_rules.specs.Verified.{BodyKeeps, BodyStands};
ghost use Rattle.std.specs.Prelude.{◌≡◌, ◌↔◌, ◌≤◌, IfOk, IsTrue, length};

use crate::faults::{lesser, offset_of};
use crate::parts::{first_bad_frame, first_bad_handler};
use crate::sizes::code_end;
use class_linked::{Constant, Linked, LinkedCode, LinkedMethod};
use class_verify_flow::first_mistyped;
use class_verify_flow::flow::declared_frame;
use class_verify_frames::Body;
use class_verify_frames::bodies::{frame_starts_of, starts_of};
use class_verify_frames::frames::{arguments_of, entry_frame, frame_fits};
use class_verify_turns::first_untimed;
use kt_base::NoMemory;
use sqlite_items::at;
use std::alloc::Global;

/// Whether offsets ascend.
fn ascend(starts: &[u32]) -> bool
    ensures { IsTrue result ↔ Ascends 0 starts.now }
{
    let mut least = 0;
    for start in starts {
        let offset = *start as u64;
        if offset < least {
            return false;
        }
        least = offset + 1;
    }
    true
}

/// Whether a method begins with an instruction, into whose frame the one at the start fits where that is given.
fn begins_well(alloc: Global, method: &Body) -> Result<bool, NoMemory>
    requires { IsIndexed method.now }
    ensures { IfOk result (λ fine. IsTrue fine ↔ IsThere (instruction (body method.now) 0)
        (λ i. WhereSome (declared (body method.now) i.0)
        (FrameFits method.now.program.now (entry (body method.now))))) }
{
    match at(method.code.instructions.as_slice(), 0) {
        None => Ok(false),
        Some(first) => match declared_frame(method, first.0) {
            None => Ok(true),
            Some(given) => {
                let entry = entry_frame(alloc, method)?;
                Ok(frame_fits(
                    method.program,
                    &entry,
                    given,
                    method.code.max_locals as usize,
                ))
            }
        },
    }
}

/// Whether the local variables have room for the arguments.
fn has_room(alloc: Global, method: &Body) -> Result<bool, NoMemory>
    ensures { IfOk result (λ fine. IsTrue fine ↔
        (length (spread (arguments method.now.class method.now.method.now)) ≤ method.now.code.now.max_locals)) }
{
    let arguments = arguments_of(alloc, method.class, method.method)?;
    Ok(arguments.len() <= method.code.max_locals as usize)
}

/// Whether a method keeps the rules on the method as a whole.
fn body_stands(alloc: Global, method: &Body) -> Result<bool, NoMemory>
    requires { IsIndexed method.now }
    ensures { IfOk result (λ fine. IsTrue fine ↔ BodyStands (body method.now)) }
{
    if !has_room(alloc, method)? {
        return Ok(false);
    }
    begins_well(alloc, method)
}

/// The first offset at which a rule fails, of a method that keeps the rules on the method as a whole.
fn first_fault_inside(alloc: Global, method: &Body) -> Result<Option<u32>, NoMemory>
    requires indexed { IsIndexed method.now }
    requires stands { BodyStands (body method.now) }
    ensures { IfOk result (Least (BodyKeeps (body method.now))) }
{
    let mistyped = offset_of(method, first_mistyped(alloc, method)?);
    let untimed = offset_of(method, first_untimed(alloc, method)?);
    let handler = first_bad_handler(method, code_end(method.code));
    let frame = first_bad_frame(method);
    Ok(lesser(lesser(mistyped, untimed), lesser(handler, frame)))
}

fn first_fault_indexed(alloc: Global, method: &Body) -> Result<Option<u32>, NoMemory>
    requires { IsIndexed method.now }
    ensures { IfOk result (Least (BodyKeeps (body method.now))) }
{
    if !body_stands(alloc, method)? {
        return Ok(Some(0));
    }
    first_fault_inside(alloc, method)
}

/// The first offset at which a rule fails of a method with code: `None` exactly where each is kept.
pub fn first_fault(
    alloc: Global,
    program: &Linked,
    class: usize,
    constants: &[Constant],
    method: &LinkedMethod,
    code: &LinkedCode,
) -> Result<Option<u32>, NoMemory>
    ensures { IfOk result (Least (BodyKeeps (made_body program.now class constants.now method.now code.now))) }
{
    let starts = starts_of(alloc, code)?;
    let frame_starts = frame_starts_of(alloc, code)?;
    if !ascend(starts.as_slice()) {
        return Ok(Some(0));
    }
    if !ascend(frame_starts.as_slice()) {
        return Ok(Some(0));
    }
    let held = Body {
        program,
        class,
        constants,
        method,
        code,
        starts: starts.as_slice(),
        frame_starts: frame_starts.as_slice(),
    };
    first_fault_indexed(alloc, &held)
}
