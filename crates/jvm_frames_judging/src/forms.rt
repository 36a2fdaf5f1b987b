//! A frame in its form (JVMS SE 8 §4.7.4).

ghost use Rattle.jvm_class_judging.specs.Judging.{judge_form, judge_two};
ghost use Rattle.jvm_class_tally.specs.Tallies.{on, took};
ghost use Rattle.jvm_frames_forms.specs.FormsSeen.{form_seen};
ghost use Rattle.jvm_maps.specs.Frames as frames;
ghost use Rattle.std.specs.Prelude.{◌≡◌};

use crate::types::{counted_types, frame_type, types};
use jvm_class_tally::Tally;
use jvm_class_types::FrameType;
use jvm_frames_forms::Form;
use jvm_pool::Pool;

/// The tally behind a frame that lists all its types.
fn full(
    pool: &Pool,
    delta: u16,
    locals: &[FrameType],
    stack: &[FrameType],
    tally: Tally,
) -> Option<Tally>
    ensures { result ≡ judge_form pool.now (frames.Full delta locals.now stack.now) tally }
{
    let tally = tally.behind(1)?;
    let tally = tally.half(delta)?;
    let tally = counted_types(pool, locals, tally)?;
    counted_types(pool, stack, tally)
}

/// The tally behind a tag and a delta.
fn far(tally: Tally, delta: u16) -> Option<Tally>
    ensures { result ≡ on (took 1 tally) (judge_two delta) }
{
    let tally = tally.behind(1)?;
    tally.half(delta)
}

/// The tally behind a frame in this form.
pub fn form(pool: &Pool, form: &Form<'_>, tally: Tally) -> Option<Tally>
    ensures { result ≡ judge_form pool.now (form_seen form.now) tally }
{
    match form {
        Form::Same(_) => tally.behind(1),
        Form::SameOne(_, one) => frame_type(pool, one, tally.behind(1)?),
        Form::SameOneFar(delta, one) => frame_type(pool, one, far(tally, *delta)?),
        Form::Chop(_, delta) | Form::SameFar(delta) => far(tally, *delta),
        Form::Append(_, delta, more) => types(pool, more, far(tally, *delta)?),
        Form::Full(delta, locals, stack) => full(pool, *delta, locals, stack, tally),
    }
}
