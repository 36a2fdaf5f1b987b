//! Stack map frames, each against the one before (JVMS SE 8 §4.7.4).

ghost use Rattle.jvm_frames_judging.specs.Starts.{lacking_form, start_before, start_types};
ghost use Rattle.jvm_class_judging.specs.Judging.{judge_frame, judge_frames};
ghost use Rattle.jvm_class_types.specs.Seen.{frame_seen};
ghost use Rattle.jvm_frames_forms.specs.FormsSeen.{form_seen};
ghost use Rattle.jvm_maps.specs.Frames.{after, delta_of, form_with, is_later};
ghost use Rattle.std.specs.Prelude.{◌≡◌, ◌≤◌, ◌^◌, map, true, IfSome, None};

use crate::forms::form;
use crate::starts::{Difference, Start, compared};
use jvm_class_tally::Tally;
use jvm_class_types::{Frame, FrameType};
use jvm_frames_forms::Form;
use jvm_frames_forms::forms::form_of;
use jvm_pool::Pool;

/// The delta of a frame, where it is later than the one before, if any, and fits two bytes.
fn delta(previous: Option<u32>, offset: u32) -> Option<u16>
    ensures some { IfSome result (λ d. (is_later previous offset ≡ true) × (d ≡ delta_of previous offset)) }
    ensures none { result ≡ None → is_later previous offset ≡ true → 2 ^ 16 ≤ delta_of previous offset }
{
    let distance = match previous {
        None => offset,
        Some(before) => {
            if before < offset {
                offset - before - 1
            } else {
                return None;
            }
        }
    };
    if distance < 0x10000 {
        Some(distance as u16)
    } else {
        None
    }
}

/// The form of a frame that lacks so many of the locals at the start.
fn fewer<'a>(count: usize, delta: u16, locals: &'a [FrameType], stack: &'a [FrameType]) -> Form<'a>
    ensures { form_seen result ≡ lacking_form count delta locals.now stack.now }
{
    match stack {
        [] => {
            if count <= 3 {
                Form::Chop(count as u8, delta)
            } else {
                Form::Full(delta, locals, stack)
            }
        }
        [_, ..] => Form::Full(delta, locals, stack),
    }
}

/// The first form that fits the first frame of a method.
fn first_form<'a>(
    start: Start<'_>,
    delta: u16,
    locals: &'a [FrameType],
    stack: &'a [FrameType],
) -> Form<'a>
    ensures { form_seen result ≡ form_with (start_types start.entry) delta locals.now stack.now }
{
    match compared(start, locals) {
        Difference::More(count) => {
            form_of(&locals[..locals.len() - count], delta, locals, stack)
        }
        Difference::Fewer(count) => fewer(count, delta, locals, stack),
        Difference::Other => Form::Full(delta, locals, stack),
    }
}

/// The tally behind the first frame of a method.
fn first_frame(pool: &Pool, start: Start<'_>, frame: &Frame, tally: Tally) -> Option<Tally>
    ensures { result ≡ judge_frame pool.now (start_before start.entry) (frame_seen frame.now) tally }
{
    match delta(None, frame.offset) {
        Some(delta) => {
            let written = first_form(start, delta, &frame.locals, &frame.stack);
            form(pool, &written, tally)
        }
        None => None,
    }
}

/// The tally behind a frame that follows another.
fn next_frame(pool: &Pool, before: &Frame, frame: &Frame, tally: Tally) -> Option<Tally>
    ensures { result ≡ judge_frame pool.now (after (frame_seen before.now)) (frame_seen frame.now) tally }
{
    match delta(Some(before.offset), frame.offset) {
        Some(delta) => {
            let written = form_of(&before.locals, delta, &frame.locals, &frame.stack);
            form(pool, &written, tally)
        }
        None => None,
    }
}

/// The tally behind the frames that follow one.
fn next_frames<'a>(
    pool: &Pool,
    first: &'a Frame,
    frames: &'a [Frame],
    before: Tally,
) -> Option<Tally>
    ensures { result ≡ judge_frames pool.now (after (frame_seen first.now)) (map frame_seen frames.now) before }
{
    let mut previous = first;
    let mut tally = before;
    for frame in frames {
        tally = next_frame(pool, previous, frame, tally)?;
        previous = frame;
    }
    Some(tally)
}

/// The tally behind frames, the first against the types at the start of the method.
pub fn frames(pool: &Pool, start: Start<'_>, frames: &[Frame], tally: Tally) -> Option<Tally>
    ensures { result ≡ judge_frames pool.now (start_before start.entry) (map frame_seen frames.now) tally }
{
    match frames {
        [] => Some(tally),
        [first, others @ ..] => {
            let tally = first_frame(pool, start, first, tally)?;
            next_frames(pool, first, others, tally)
        }
    }
}
