//! The interfaces directly above a class (JVMS SE 8 §4.1).

ghost use Rattle.jvm_class_judging.specs.Judging.{judge_class_name};
ghost use Rattle.jvm_class_tally.specs.Tallies.{judge_counted, judge_each};
ghost use Rattle.std.specs.Prelude.{◌≡◌};

use crate::names::class_name;
use jvm_class_tally::Tally;
use jvm_pool::Pool;
use kt_base::Name;

/// The tally behind each of these classes.
fn each(pool: &Pool, names: &[Name], before: Tally) -> Option<Tally>
    ensures { result ≡ judge_each (judge_class_name pool.now) names.now before }
{
    let mut tally = before;
    for name in names {
        tally = class_name(pool, name, tally)?;
    }
    Some(tally)
}

/// The tally behind interfaces and their number.
pub fn interfaces(pool: &Pool, names: &[Name], tally: Tally) -> Option<Tally>
    ensures { result ≡ judge_counted (judge_class_name pool.now) names.now tally }
{
    let tally = tally.count(names.len())?;
    each(pool, names, tally)
}
