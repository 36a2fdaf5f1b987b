//! Entries of an exception table and frames by themselves (JVMS SE 8 §4.7.3, §4.7.4, §4.10.1.3).

ghost use Rattle.class_verify_frames.specs.Views.{IsIndexed, body};
ghost use Rattle.class_verify_methods.specs.Faults.{FramesAt, HandlersAt, KindsStand, Least};
ghost use Rattle.class_verify_rules.specs.Bodies.{HasInstruction, end_of};
ghost use Rattle.class_verify_rules.specs.Frames.{declared};
ghost use Rattle.class_verify_rules.specs.Kinds.{units};
ghost use Rattle.class_verify_rules.specs.Typing.{IsThere};
ghost use Rattle.class_verify_rules.specs.Verified.{FrameStands, HandlerStands, KindStands};
ghost use Rattle.std.specs.Prelude.{◌≡◌, ◌↔◌, ◌<◌, ◌≤◌, ◌⊎◌, IsTrue, MatchOption, length};

use crate::faults::noted;
use class_linked::{Kind, LinkedFrame, LinkedHandler};
use class_verify_flow::flow::{declared_frame, has_instruction};
use class_verify_frames::Body;
use class_verify_frames::frames::is_constructing;
use class_verify_frames::kinds::{THROWABLE_CLASS, is_class_below, width_of};
use class_verify_steps::calls::made_class;

/// Whether a range ends at an instruction, or where the code ends.
fn ends_well(method: &Body, end: Option<u64>, offset: u16) -> bool
    requires indexed { IsIndexed method.now }
    requires end { MatchOption end (65535 < end_of method.now.code.now.instructions)
        (λ e. e ≡ end_of method.now.code.now.instructions) }
    ensures { IsTrue result ↔
        (HasInstruction (body method.now) offset ⊎ (end_of method.now.code.now.instructions ≡ offset)) }
{
    if has_instruction(method, offset as u32) {
        return true;
    }
    match end {
        None => false,
        Some(end) => { if end == offset as u64 { true } else { false } }
    }
}

fn has_frame(method: &Body, offset: u16) -> bool
    requires { IsIndexed method.now }
    ensures { IsTrue result ↔ IsThere (declared (body method.now) offset) (λ f. Unit {0}) }
{
    match declared_frame(method, offset as u32) {
        None => false,
        Some(_) => true,
    }
}

/// Whether an entry of the exception table keeps the rules by itself.
fn handler_stands(method: &Body, end: Option<u64>, handler: &LinkedHandler) -> bool
    requires indexed { IsIndexed method.now }
    requires end { MatchOption end (65535 < end_of method.now.code.now.instructions)
        (λ e. e ≡ end_of method.now.code.now.instructions) }
    ensures { IsTrue result ↔ HandlerStands (body method.now) handler.now }
{
    if handler.start >= handler.end {
        return false;
    }
    if handler.end > handler.handler {
        return false;
    }
    if !has_instruction(method, handler.start as u32) {
        return false;
    }
    if !ends_well(method, end, handler.end) {
        return false;
    }
    if !has_instruction(method, handler.handler as u32) {
        return false;
    }
    if !has_frame(method, handler.handler) {
        return false;
    }
    if is_class_below(method.program, handler.catch, THROWABLE_CLASS) {
        true
    } else {
        false
    }
}

/// Where the first range begins whose entry breaks a rule by itself.
pub fn first_bad_handler(method: &Body, end: Option<u64>) -> Option<u32>
    requires indexed { IsIndexed method.now }
    requires end { MatchOption end (65535 < end_of method.now.code.now.instructions)
        (λ e. e ≡ end_of method.now.code.now.instructions) }
    ensures { Least (HandlersAt (body method.now) (length method.now.code.now.handlers)) result }
{
    let mut least = None;
    for handler in method.code.handlers.as_slice() {
        let stands = handler_stands(method, end, handler);
        least = noted(least, stands, handler.start as u32);
    }
    least
}

/// Whether a kind may stand in a frame.
fn kind_stands(method: &Body, kind: Kind) -> bool
    requires { IsIndexed method.now }
    ensures { IsTrue result ↔ KindStands (body method.now) kind }
{
    match kind {
        Kind::Fresh(offset) => match made_class(method, offset) {
            None => false,
            Some(_) => true,
        },
        Kind::FreshThis => {
            if is_constructing(method.method.role) {
                true
            } else {
                false
            }
        }
        Kind::Top | Kind::Int | Kind::Long | Kind::Null | Kind::Object(_) => true,
    }
}

fn kinds_stand(method: &Body, kinds: &[Kind]) -> bool
    requires { IsIndexed method.now }
    ensures { IsTrue result ↔ KindsStand (body method.now) kinds.now }
{
    for kind in kinds {
        if !kind_stands(method, *kind) {
            return false;
        }
    }
    true
}

/// Whether kinds take at most so many units.
fn are_within(kinds: &[Kind], most: u16) -> bool
    ensures { IsTrue result ↔ (units kinds.now ≤ most) }
{
    let mut left = most;
    for kind in kinds {
        let width = width_of(*kind);
        if width > left {
            return false;
        }
        left -= width;
    }
    true
}

/// Whether a frame keeps the rules by itself.
fn frame_stands(method: &Body, given: &LinkedFrame) -> bool
    requires { IsIndexed method.now }
    ensures { IsTrue result ↔ FrameStands (body method.now) given.now }
{
    if !has_instruction(method, given.offset) {
        return false;
    }
    if given.locals.len() > method.code.max_locals as usize {
        return false;
    }
    if !are_within(given.stack.as_slice(), method.code.max_stack) {
        return false;
    }
    if !kinds_stand(method, given.locals.as_slice()) {
        return false;
    }
    kinds_stand(method, given.stack.as_slice())
}

/// The offset of the first frame that breaks a rule by itself.
pub fn first_bad_frame(method: &Body) -> Option<u32>
    requires { IsIndexed method.now }
    ensures { Least (FramesAt (body method.now) (length method.now.code.now.frames)) result }
{
    let mut least = None;
    for given in method.code.frames.as_slice() {
        let stands = frame_stands(method, given);
        least = noted(least, stands, given.offset);
    }
    least
}
