//! The first instruction of a method that breaks the turn rule.

ghost use Rattle.class_verify_frames.specs.Views.{IsIndexed, body};
ghost use Rattle.class_verify_rules.specs.Acts.{act};
ghost use Rattle.class_verify_rules.specs.Bodies.{starting_at};
ghost use Rattle.class_verify_rules.specs.Frames.{targets};
ghost use Rattle.class_verify_rules.specs.Turns.{IsFixed, IsTimed, is_fixed_at, is_tick_at, makes, resumes};
ghost use Rattle.class_verify_rules.specs.Typing.{Each};
ghost use Rattle.class_verify_turns.specs.Timing.{AreEarly, IsAt, IsSeen, LateHolds, OnceHolds, TimedAt, UntimedFirst};
ghost use Rattle.std.specs.Prelude.{◌≡◌, ◌↔◌, ◌<◌, ◌≤◌, ◌||◌, ℕ, IfOk, IsTrue, MatchOption, Some, length, true};

use crate::paths::{early_places, is_among};
use crate::ticks::{
    is_due_before, is_fixed, is_fixed_instruction, is_resumed, makes_continuation, resumes_body,
    ticks_at,
};
use class_verify_flow::targets::targets_of;
use class_verify_frames::Body;
use jvm_code::Instr;
use kt_base::NoMemory;
use sqlite_items::at;
use std::alloc::Global;

fn lands_well(method: &Body, offset: u32, target: u32) -> bool
    requires { IsIndexed method.now }
    ensures { IsTrue result ↔
        (target ≤ offset → is_tick_at (body method.now) (starting_at (body method.now) target) ≡ true) }
{
    if target <= offset {
        ticks_at(method, target)
    } else {
        true
    }
}

/// Whether each branch back lands on a tick.
fn all_land_well(method: &Body, offset: u32, targets: &[u32]) -> bool
    requires { IsIndexed method.now }
    ensures { IsTrue result ↔ Each targets.now
        (λ to. to ≤ offset → is_tick_at (body method.now) (starting_at (body method.now) to) ≡ true) }
{
    for target in targets {
        if !lands_well(method, offset, *target) {
            return false;
        }
    }
    true
}

/// Whether a call or a return comes behind a tick on each path.
fn is_behind_ticks(
    method: &Body,
    early: &[usize],
    fixed: bool,
    place: usize,
    instruction: &(u32, Instr),
) -> bool
    requires early { AreEarly (body method.now) early.now }
    requires fixed { IsTrue fixed ↔ IsFixed (body method.now) }
    requires is { IsAt (body method.now) place instruction.now }
    ensures { IsTrue result ↔ LateHolds (body method.now) place instruction.now.1 }
{
    if !is_due_before(method, &instruction.1) {
        return true;
    }
    if fixed {
        return true;
    }
    if is_resumed(method.method.role) {
        return true;
    }
    if is_among(early, place) { false } else { true }
}

/// Whether an instruction is the fixed one where the code is fixed.
fn is_as_fixed(method: &Body, fixed: bool, place: usize, instr: &Instr) -> bool
    requires { IsTrue fixed ↔ IsFixed (body method.now) }
    ensures { IsTrue result ↔ (IsFixed (body method.now) → is_fixed_at (body method.now) place instr.now ≡ true) }
{
    if fixed {
        is_fixed_instruction(method, place, instr)
    } else {
        true
    }
}

/// Whether an instruction that makes a continuation is the first that does.
fn makes_once(method: &Body, made: bool, place: usize, instruction: &(u32, Instr)) -> bool
    requires { IsSeen (body method.now) (makes (body method.now)) place made }
    ensures { IsTrue result ↔ OnceHolds (body method.now) (makes (body method.now)) place instruction.now }
{
    if !makes_continuation(method, instruction) {
        return true;
    }
    if made {
        return false;
    }
    if is_resumed(method.method.role) {
        false
    } else {
        true
    }
}

/// Whether an instruction that calls `invokeSuspend` is the first that does.
fn resumes_once(method: &Body, resumed: bool, place: usize, instruction: &(u32, Instr)) -> bool
    requires { IsSeen (body method.now) (resumes (body method.now)) place resumed }
    ensures { IsTrue result ↔ OnceHolds (body method.now) (resumes (body method.now)) place instruction.now }
{
    if !resumes_body(method, instruction) {
        return true;
    }
    if resumed {
        return false;
    }
    if is_resumed(method.method.role) {
        false
    } else {
        true
    }
}

fn branches_back_well(
    alloc: Global,
    method: &Body,
    instruction: &(u32, Instr),
) -> Result<bool, NoMemory>
    requires { IsIndexed method.now }
    ensures { IfOk result (λ fine. IsTrue fine ↔ Each (targets (act instruction.now.1))
        (λ to. to ≤ instruction.now.0 →
        is_tick_at (body method.now) (starting_at (body method.now) to) ≡ true)) }
{
    let targets = targets_of(alloc, &instruction.1)?;
    Ok(all_land_well(method, instruction.0, targets.as_slice()))
}

/// What is known before an instruction.
#[derive(Clone, Copy)]
struct Before {
    /// Whether the method is the constructor of a continuation.
    fixed: bool,
    /// Whether an instruction above made a continuation.
    made: bool,
    /// Whether an instruction above called `invokeSuspend`.
    resumed: bool,
}

/// Whether an instruction keeps the turn rule.
fn is_timed(
    alloc: Global,
    method: &Body,
    early: &[usize],
    before: Before,
    place: usize,
    instruction: &(u32, Instr),
) -> Result<bool, NoMemory>
    requires indexed { IsIndexed method.now }
    requires early { AreEarly (body method.now) early.now }
    requires fixed { IsTrue before.fixed ↔ IsFixed (body method.now) }
    requires made { IsSeen (body method.now) (makes (body method.now)) place before.made }
    requires resumed { IsSeen (body method.now) (resumes (body method.now)) place before.resumed }
    requires is { IsAt (body method.now) place instruction.now }
    ensures { IfOk result (λ fine. IsTrue fine ↔
        IsTimed (body method.now) place instruction.now.0 instruction.now.1) }
{
    if !branches_back_well(alloc, method, instruction)? {
        return Ok(false);
    }
    if !is_behind_ticks(method, early, before.fixed, place, instruction) {
        return Ok(false);
    }
    if !is_as_fixed(method, before.fixed, place, &instruction.1) {
        return Ok(false);
    }
    if !makes_once(method, before.made, place, instruction) {
        return Ok(false);
    }
    Ok(resumes_once(method, before.resumed, place, instruction))
}

fn either(a: bool, b: bool) -> bool
    ensures { result ≡ (a || b) }
{
    a || b
}

/// What is known before the next instruction.
fn known_behind(method: &Body, before: Before, instruction: &(u32, Instr)) -> Before
    ensures fixed { result.fixed ≡ before.fixed }
    ensures made { result.made ≡ (before.made || makes (body method.now) instruction.now) }
    ensures resumed { result.resumed ≡ (before.resumed || resumes (body method.now) instruction.now) }
{
    Before {
        fixed: before.fixed,
        made: either(before.made, makes_continuation(method, instruction)),
        resumed: either(before.resumed, resumes_body(method, instruction)),
    }
}

/// The place of the first instruction that breaks the turn rule: `None` exactly where each keeps it.
pub fn first_untimed(alloc: Global, method: &Body) -> Result<Option<usize>, NoMemory>
    requires { IsIndexed method.now }
    ensures { IfOk result (λ found. MatchOption found
        ((place : ℕ) → TimedAt (body method.now) place) (UntimedFirst (body method.now))) }
{
    let early = early_places(alloc, method)?;
    let mut before = Before {
        fixed: is_fixed(method),
        made: false,
        resumed: false,
    };
    for place in 0..method.code.instructions.len() {
        match at(method.code.instructions.as_slice(), place) {
            None => unreachable!(),
            Some(instruction) => {
                if !is_timed(alloc, method, early.as_slice(), before, place, instruction)? {
                    return Ok(Some(place));
                }
                before = known_behind(method, before, instruction);
            }
        }
    }
    Ok(None)
}
