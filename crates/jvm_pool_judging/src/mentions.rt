//! What mentions make of a tally (JVMS SE 8 §4.4). No call here takes memory.

ghost use Rattle.jvm_class_tally.specs.Tallies.{judge_entry};
ghost use Rattle.jvm_pool.specs.declared.entries.Entry.TheVariants as entry;
ghost use Rattle.std.specs.Prelude.{◌≡◌};

use crate::counting::{counted_class, counted_name};
use jvm_class_tally::Tally;
use jvm_pool::Pool;

/// The tally behind the index of the text of a name: `None` exactly where that may not be mentioned here.
pub fn text(pool: &Pool, name: &[u8], tally: Tally) -> Option<Tally>
    ensures { result ≡ judge_entry pool.now (entry.Utf8 name.now) tally }
{
    let behind = tally.behind(2)?;
    behind.moved(counted_name(pool, name, behind.counter))
}

/// The tally behind the index of a class: `None` exactly where that may not be mentioned here.
pub fn class(pool: &Pool, name: &[u8], tally: Tally) -> Option<Tally>
    ensures { result ≡ judge_entry pool.now (entry.Class name.now) tally }
{
    let behind = tally.behind(2)?;
    behind.moved(counted_class(pool, name, behind.counter))
}
