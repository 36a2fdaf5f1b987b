//! Where paths lead on which no turn is charged.

ghost use Rattle.class_verify_frames.specs.Views.{IsIndexed, body};
ghost use Rattle.class_supers.specs.Graph.{Ascends};
ghost use Rattle.class_verify_rules.specs.Turns.{is_tick};
ghost use Rattle.class_verify_rules.specs.Typing.{Covers};
ghost use Rattle.class_verify_turns.specs.Timing.{Adds, AreEarly, AreNext, IsAt, IsHandler, IsOn, IsPlace, IsTarget};
ghost use Rattle.class_verify_turns.specs.Timing.{Stands};
ghost use Rattle.std.specs.Prelude.{◌≡◌, ◌↔◌, ◌<◌, ◌^◌, ℕ, List, IfOk, IsTrue, OnOk, Some, false, length, slice_get};

use crate::ticks::ticks;
use class_linked::LinkedHandler;
use class_supers::supers_of;
use class_verify_flow::flow::covers;
use class_verify_flow::targets::{may_go_on, targets_of};
use class_verify_frames::Body;
use class_verify_frames::bodies::place_at;
use jvm_code::Instr;
use kt_base::NoMemory;
use sqlite_items::{Items, at};
use std::alloc::Global;

/// Adds the place of the instruction that starts at an offset.
fn push_place(method: &Body, row: &mut Items<usize>, offset: u32) -> Result<(), NoMemory>
    requires { IsIndexed method.now }
    ensures { OnOk result (Adds (IsPlace (body method.now) offset) row.old row.new) }
{
    match place_at(method, offset) {
        None => Ok(()),
        Some(place) => {
            row.push(place)?;
            Ok(())
        }
    }
}

fn push_targets(method: &Body, row: &mut Items<usize>, targets: &[u32]) -> Result<(), NoMemory>
    requires { IsIndexed method.now }
    ensures { OnOk result (Adds (IsTarget (body method.now) targets.now (length targets.now)) row.old row.new) }
{
    for target in targets {
        push_place(method, row, *target)?;
    }
    Ok(())
}

fn push_handler(
    method: &Body,
    row: &mut Items<usize>,
    offset: u32,
    handler: &LinkedHandler,
) -> Result<(), NoMemory>
    requires { IsIndexed method.now }
    ensures { OnOk result (Adds (λ j. Covers handler.now offset × IsPlace (body method.now) handler.now.handler j)
        row.old row.new) }
{
    if covers(handler, offset) {
        push_place(method, row, handler.handler as u32)?;
    }
    Ok(())
}

fn push_handlers(method: &Body, row: &mut Items<usize>, offset: u32) -> Result<(), NoMemory>
    requires { IsIndexed method.now }
    ensures { OnOk result (Adds (IsHandler (body method.now) method.now.code.now.handlers offset
        (length method.now.code.now.handlers)) row.old row.new) }
{
    for handler in method.code.handlers.as_slice() {
        push_handler(method, row, offset, handler)?;
    }
    Ok(())
}

fn push_on(row: &mut Items<usize>, place: usize, instr: &Instr) -> Result<(), NoMemory>
    requires { place < 2 ^ 63 }
    ensures { OnOk result (Adds (IsOn instr.now place) row.old row.new) }
{
    if may_go_on(instr) {
        row.push(place + 1)?;
    }
    Ok(())
}

/// The places to which an instruction leads.
fn places_behind(
    alloc: Global,
    method: &Body,
    place: usize,
    instruction: &(u32, Instr),
) -> Result<Items<usize>, NoMemory>
    requires indexed { IsIndexed method.now }
    requires is { IsAt (body method.now) place instruction.now }
    requires plain { is_tick (body method.now) instruction.now.1 ≡ false }
    ensures { IfOk result (AreNext (body method.now) place) }
{
    let targets = targets_of(alloc, &instruction.1)?;
    let mut row = Items::new(alloc);
    push_on(&mut row, place, &instruction.1)?;
    push_targets(method, &mut row, targets.as_slice())?;
    push_handlers(method, &mut row, instruction.0)?;
    Ok(row)
}

/// The places to which an instruction leads without a tick.
fn next_places(
    alloc: Global,
    method: &Body,
    place: usize,
    instruction: &(u32, Instr),
) -> Result<Items<usize>, NoMemory>
    requires indexed { IsIndexed method.now }
    requires is { IsAt (body method.now) place instruction.now }
    ensures { IfOk result (AreNext (body method.now) place) }
{
    if ticks(method, &instruction.1) {
        return Ok(Items::new(alloc));
    }
    places_behind(alloc, method, place, instruction)
}

fn all_next_places(alloc: Global, method: &Body) -> Result<Items<Items<usize>>, NoMemory>
    requires { IsIndexed method.now }
    ensures long { IfOk result (λ rows. length rows ≡ length method.now.code.now.instructions) }
    ensures each { IfOk result (λ rows. (k : ℕ) (row : List ℕ) → slice_get rows k ≡ Some row →
        AreNext (body method.now) k row) }
{
    let mut rows = Items::new(alloc);
    for place in 0..method.code.instructions.len() {
        match at(method.code.instructions.as_slice(), place) {
            None => unreachable!(),
            Some(instruction) => rows.push(next_places(alloc, method, place, instruction)?)?,
        }
    }
    Ok(rows)
}

/// The places that some path reaches without a tick, ascending.
pub fn early_places(alloc: Global, method: &Body) -> Result<Items<usize>, NoMemory>
    requires { IsIndexed method.now }
    ensures { IfOk result (AreEarly (body method.now)) }
{
    let rows = all_next_places(alloc, method)?;
    if rows.len() == 0 {
        return Ok(Items::new(alloc));
    }
    supers_of(alloc, rows.as_slice(), 0)
}

/// Whether a place is one of several that ascend.
pub fn is_among(places: &[usize], place: usize) -> bool
    requires { Ascends 0 places.now }
    ensures { IsTrue result ↔ Stands places.now place }
{
    match places.binary_search(&place) {
        Ok(_) => true,
        Err(_) => false,
    }
}
