//! Types in frames (JVMS SE 8 §4.7.4).

ghost use Rattle.jvm_class_judging.specs.Judging.{judge_type, judge_types};
ghost use Rattle.jvm_class_tally.specs.Tallies.{judge_counted};
ghost use Rattle.std.specs.Prelude.{◌≡◌};

use jvm_class_tally::Tally;
use jvm_class_types::FrameType;
use jvm_members_judging::names::class_name;
use jvm_pool::Pool;

/// The tally behind a type.
pub fn frame_type(pool: &Pool, found: &FrameType, tally: Tally) -> Option<Tally>
    ensures { result ≡ judge_type pool.now found.now tally }
{
    let tally = tally.behind(1)?;
    match found {
        FrameType::Object(name) => class_name(pool, name, tally),
        FrameType::Uninitialized(at) => tally.count(*at as usize),
        FrameType::Top
        | FrameType::Integer
        | FrameType::Long
        | FrameType::Null
        | FrameType::UninitializedThis => Some(tally),
    }
}

/// The tally behind each of these types.
pub fn types(pool: &Pool, types: &[FrameType], before: Tally) -> Option<Tally>
    ensures { result ≡ judge_types pool.now types.now before }
{
    let mut tally = before;
    for one in types {
        tally = frame_type(pool, one, tally)?;
    }
    Some(tally)
}

/// The tally behind types and their number.
pub fn counted_types(pool: &Pool, all: &[FrameType], tally: Tally) -> Option<Tally>
    ensures { result ≡ judge_counted (judge_type pool.now) all.now tally }
{
    let tally = tally.count(all.len())?;
    types(pool, all, tally)
}
