//! Mentions as they are read (JVMS SE 8 §4.4).

ghost use Rattle.jvm_class_formats.specs.Formats.{mentioned, saying};
ghost use Rattle.jvm_class_formats.specs.Reads.{Reads};
ghost use Rattle.jvm_maps.specs.Types as types;
ghost use Rattle.jvm_maps.specs.Types.{class_inside};
ghost use Rattle.jvm_mentions.specs.Placing.{counted_spot};
ghost use Rattle.jvm_pool.specs.Mentions.{count_mention};
ghost use Rattle.std.specs.Prelude.{◌≡◌};

use crate::counting::counted;
use jvm_class_formats::numbers::half;
use jvm_class_formats::{Place, ReadErr};
use jvm_pool::{Entry, Pool};
use kt_base::Name;
use std::alloc::Global;

/// The place behind the mention of an entry. `rest` is the place behind its index, with the counter from before.
/// Refused at `at`, where the item began, exactly where the entry may not be mentioned here by the order of first
/// mention.
pub fn behind_mention<'a>(
    pool: &Pool,
    alloc: Global,
    e: &Entry,
    at: u64,
    rest: Place<'a>,
) -> Result<Place<'a>, ReadErr>
    ensures { Reads (λ s. s) result (counted_spot rest.entry at (count_mention pool.now e.now rest.entry.counter)) }
{
    match counted(pool, alloc, e, rest.counter)? {
        None => Err(ReadErr::BadBytes { offset: at }),
        Some(counter) => Ok(Place {
            total: rest.total,
            counter,
            bytes: rest.bytes,
        }),
    }
}

/// The name of the class that is mentioned. Refused at its start exactly where the index is not that of a class that
/// may be mentioned here, and at the file's length where that ends within it.
#[tactic(auto, unfolding(jvm_class_formats::specs::Formats::mention_at))]
pub fn class_name<'a>(
    pool: &Pool,
    alloc: Global,
    place: Place<'a>,
) -> Result<(Name, Place<'a>), ReadErr>
    ensures { Reads (λ x. (x.0, x.1)) result ((types.class_name pool.now).read place.entry) }
{
    let at = place.offset();
    let (index, rest) = half(place)?;
    match pool.get(index) {
        Some(e) => class_of(pool, alloc, e, at, rest),
        None => Err(ReadErr::BadBytes { offset: at }),
    }
}

/// The name of a class whose mention began at `at`; `rest` is the place behind its index.
fn class_of<'a>(
    pool: &Pool,
    alloc: Global,
    e: &Entry,
    at: u64,
    rest: Place<'a>,
) -> Result<(Name, Place<'a>), ReadErr>
    ensures { Reads (λ x. (x.0, x.1)) result
        (mentioned pool.now rest.entry at rest.entry.counter (saying e.now (class_inside e.now))) }
{
    match e {
        Entry::Class(name) => {
            let behind = behind_mention(pool, alloc, e, at, rest)?;
            Ok((name.clone()?, behind))
        }
        _ => Err(ReadErr::BadBytes { offset: at }),
    }
}
