//! Flow from an instruction into frames of the class file.

ghost use Rattle.class_verify_flow.specs.Checks.{HandlerFits};
ghost use Rattle.class_verify_frames.specs.Views.{IsIndexed, body, frame};
ghost use Rattle.class_verify_rules.specs.Bodies.{HasInstruction, instruction};
ghost use Rattle.class_verify_rules.specs.Frames.{FrameFits, declared, shown};
ghost use Rattle.class_verify_rules.specs.Typing.{Covers, Each, GoesOn, Meets, WhereSome};
ghost use Rattle.std.specs.Prelude.{◌≡◌, ◌↔◌, ◌<◌, IsTrue, MatchOption, None, Some, length, slice_get};

use class_linked::{LinkedFrame, LinkedHandler};
use class_verify_frames::bodies::{frame_at, place_at};
use class_verify_frames::frames::{caught_fits, frame_fits};
use class_verify_frames::{Body, Frame};
use sqlite_items::at;

/// Whether an instruction starts at an offset.
pub fn has_instruction(method: &Body, offset: u32) -> bool
    requires { IsIndexed method.now }
    ensures { IsTrue result ↔ HasInstruction (body method.now) offset }
{
    match place_at(method, offset) {
        None => false,
        Some(_) => true,
    }
}

/// The frame that the class file has for an offset.
pub fn declared_frame<'a>(method: &Body<'a>, offset: u32) -> Option<&'a LinkedFrame>
    requires { IsIndexed method.now }
    ensures { MatchOption result (declared (body method.now) offset ≡ None) (λ given.
        declared (body method.now) offset ≡ Some (shown method.now.code.now.max_locals given.now)) }
{
    frame_at(method, offset)
}

/// Whether a frame fits into that of the place to which an instruction jumps.
fn meets(method: &Body, held: &Frame, target: u32) -> bool
    requires { IsIndexed method.now }
    ensures { IsTrue result ↔ Meets (body method.now) target (frame held.now) }
{
    if !has_instruction(method, target) {
        return false;
    }
    match declared_frame(method, target) {
        None => false,
        Some(given) => frame_fits(method.program, held, given, method.code.max_locals as usize),
    }
}

/// Whether a frame fits into those of all places to which an instruction jumps.
pub fn meets_all(method: &Body, held: &Frame, targets: &[u32]) -> bool
    requires { IsIndexed method.now }
    ensures { IsTrue result ↔ Each targets.now (λ to. Meets (body method.now) to (frame held.now)) }
{
    for target in targets {
        if !meets(method, held, *target) {
            return false;
        }
    }
    true
}

fn fits_where_declared(method: &Body, held: &Frame, offset: u32) -> bool
    requires { IsIndexed method.now }
    ensures { IsTrue result ↔
        WhereSome (declared (body method.now) offset) (FrameFits method.now.program.now (frame held.now)) }
{
    match declared_frame(method, offset) {
        None => true,
        Some(given) => frame_fits(method.program, held, given, method.code.max_locals as usize),
    }
}

/// Whether an instruction stands behind a place, into whose frame this one fits where that is given.
pub fn may_flow_on(method: &Body, held: &Frame, place: usize) -> bool
    requires indexed { IsIndexed method.now }
    requires inside { place < length method.now.code.now.instructions }
    ensures { IsTrue result ↔ GoesOn (body method.now) place (frame held.now) }
{
    match at(method.code.instructions.as_slice(), place + 1) {
        None => false,
        Some(next) => fits_where_declared(method, held, next.0),
    }
}

/// Whether an entry of an exception table covers an offset.
pub fn covers(handler: &LinkedHandler, offset: u32) -> bool
    ensures { IsTrue result ↔ Covers handler.now offset }
{
    if offset < handler.start as u32 {
        return false;
    }
    if offset < handler.end as u32 {
        true
    } else {
        false
    }
}

fn handler_fits(method: &Body, held: &Frame, offset: u32, handler: &LinkedHandler) -> bool
    requires { IsIndexed method.now }
    ensures { IsTrue result ↔ HandlerFits (body method.now) offset (frame held.now) handler.now }
{
    if !covers(handler, offset) {
        return true;
    }
    match declared_frame(method, handler.handler as u32) {
        None => true,
        Some(given) => {
            caught_fits(
                method.program,
                held,
                handler,
                given,
                method.code.max_locals as usize,
            )
        }
    }
}

/// Whether the frame before an instruction fits into those of all handlers that cover it.
pub fn handlers_fit(method: &Body, held: &Frame, offset: u32) -> bool
    requires { IsIndexed method.now }
    ensures { IsTrue result ↔
        Each method.now.code.now.handlers (HandlerFits (body method.now) offset (frame held.now)) }
{
    for handler in method.code.handlers.as_slice() {
        if !handler_fits(method, held, offset, handler) {
            return false;
        }
    }
    true
}
