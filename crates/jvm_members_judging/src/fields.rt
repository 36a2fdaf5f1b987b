//! Fields (JVMS SE 8 §4.5).

ghost use Rattle.jvm_class_judging.specs.Judging.{judge_field};
ghost use Rattle.jvm_class_tally.specs.Tallies.{judge_counted, judge_each};
ghost use Rattle.jvm_class_types.specs.Seen.{field_seen};
ghost use Rattle.std.specs.Prelude.{◌≡◌, map};

use crate::names::{field_descriptor, name};
use jvm_class_tally::Tally;
use jvm_class_types::Field;
use jvm_pool::Pool;

/// The tally behind a field: its flags, its name, its descriptor, and that it has no attributes.
fn field(pool: &Pool, field: &Field, tally: Tally) -> Option<Tally>
    ensures { result ≡ judge_field pool.now (field_seen field.now) tally }
{
    let tally = tally.behind(2)?;
    let tally = name(pool, &field.name, tally)?;
    let tally = field_descriptor(pool, &field.descriptor, tally)?;
    tally.behind(2)
}

/// The tally behind each of these fields.
fn each(pool: &Pool, fields: &[Field], before: Tally) -> Option<Tally>
    ensures { result ≡ judge_each (judge_field pool.now) (map field_seen fields.now) before }
{
    let mut tally = before;
    for one in fields {
        tally = field(pool, one, tally)?;
    }
    Some(tally)
}

/// The tally behind fields and their number.
pub fn fields(pool: &Pool, fields: &[Field], tally: Tally) -> Option<Tally>
    ensures { result ≡ judge_counted (judge_field pool.now) (map field_seen fields.now) tally }
{
    let tally = tally.count(fields.len())?;
    each(pool, fields, tally)
}
