//! The code of a method (JVMS SE 8 §4.7.3, §4.7.4).

ghost use Rattle.jvm_frames_judging.specs.Starts.{start_before};
ghost use Rattle.jvm_class_judging.specs.Judging.{judge_attribute, judge_code, judge_code_attributes, judge_code_body};
ghost use Rattle.jvm_class_judging.specs.Judging.{judge_counted_frames, judge_handler};
ghost use Rattle.jvm_class_tally.specs.Tallies.{judge_counted, judge_seq, judge_sized};
ghost use Rattle.jvm_class_types.specs.Seen.{code_seen, frame_seen, handler_seen};
ghost use Rattle.jvm_code.specs.Decoding.{rows, IsLaid};
ghost use Rattle.jvm_code.specs.Spelling.{spelling};
ghost use Rattle.std.specs.Prelude.{◌≡◌, ◌<◌, ◌^◌, codes, length, map};

use crate::code::{code_length, instructions, length_of};
use jvm_class_tally::{Tally, outside};
use jvm_class_types::{Code, Frame};
use jvm_frames_judging::frames::frames;
use jvm_frames_judging::starts::Start;
use jvm_members_judging::handlers::handlers;
use jvm_members_judging::names::{code_name, table_name};
use jvm_pool::Pool;

/// The tally behind frames and their number, which isn't 0.
fn counted_frames(pool: &Pool, start: Start<'_>, all: &[Frame], tally: Tally) -> Option<Tally>
    ensures { result ≡ judge_counted_frames pool.now (start_before start.entry) (map frame_seen all.now) tally }
{
    if all.is_empty() {
        return None;
    }
    let tally = tally.count(all.len())?;
    frames(pool, start, all, tally)
}

/// The tally behind frames and the length of what stands there.
fn sized_frames(pool: &Pool, start: Start<'_>, all: &[Frame], tally: Tally) -> Option<Tally>
    ensures { result ≡ judge_sized (judge_counted_frames pool.now (start_before start.entry))
        (map frame_seen all.now) tally }
{
    let behind = tally.behind(4)?;
    match behind.room {
        None => outside(counted_frames(pool, start, all, behind.entered())),
        Some(_) => counted_frames(pool, start, all, behind),
    }
}

/// The tally behind the attributes of code: a StackMapTable where there are frames, else none.
fn code_attributes(pool: &Pool, start: Start<'_>, all: &[Frame], tally: Tally) -> Option<Tally>
    ensures { result ≡ judge_code_attributes pool.now (start_before start.entry) (map frame_seen all.now) tally }
{
    let tally = tally.behind(2)?;
    if all.is_empty() {
        return Some(tally);
    }
    let tally = table_name(pool, tally)?;
    sized_frames(pool, start, all, tally)
}

/// The tally behind the instructions, the exception table and the attributes of code.
fn behind_length(pool: &Pool, start: Start<'_>, code: &Code, tally: Tally) -> Option<Tally>
    requires laid { IsLaid (rows code.now.instructions.items) }
    requires short { length (spelling (rows code.now.instructions.items)) < 2 ^ 32 }
    ensures { result ≡ judge_seq (judge_code pool.now (length (spelling (rows code.now.instructions.items))))
        (λ is. judge_seq (judge_counted (judge_handler pool.now))
        (λ handlers. judge_code_attributes pool.now (start_before start.entry))) (
          rows code.now.instructions.items,
          (
            map handler_seen code.now.handlers.items,
            map frame_seen code.now.frames.items,
          ),
        ) tally }
{
    let tally = instructions(pool, &code.instructions, tally)?;
    let tally = handlers(pool, &code.handlers, tally)?;
    code_attributes(pool, start, &code.frames, tally)
}

/// The tally behind what stands in a Code attribute behind its length.
fn code_body(pool: &Pool, start: Start<'_>, code: &Code, tally: Tally) -> Option<Tally>
    requires { IsLaid (rows code.now.instructions.items) }
    ensures { result ≡ judge_code_body pool.now (start_before start.entry) (code_seen code.now) tally }
{
    let tally = tally.half(code.max_stack)?;
    let tally = tally.half(code.max_locals)?;
    let tally = code_length(length_of(&code.instructions), tally)?;
    behind_length(pool, start, code, tally)
}

/// The tally behind what stands in a Code attribute, and its length.
fn sized_body(pool: &Pool, start: Start<'_>, code: &Code, tally: Tally) -> Option<Tally>
    requires { IsLaid (rows code.now.instructions.items) }
    ensures { result ≡ judge_sized (judge_code_body pool.now (start_before start.entry)) (code_seen code.now) tally }
{
    let behind = tally.behind(4)?;
    match behind.room {
        None => outside(code_body(pool, start, code, behind.entered())),
        Some(_) => code_body(pool, start, code, behind),
    }
}

/// The tally behind a Code attribute.
pub(crate) fn code_attribute(
    pool: &Pool,
    start: Start<'_>,
    code: &Code,
    tally: Tally,
) -> Option<Tally>
    requires { IsLaid (rows code.now.instructions.items) }
    ensures { result ≡ judge_attribute pool.now (codes "Code") (judge_code_body pool.now (start_before start.entry))
        (code_seen code.now) tally }
{
    let tally = code_name(pool, tally)?;
    sized_body(pool, start, code, tally)
}
