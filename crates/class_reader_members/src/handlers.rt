//! Exception tables (JVMS SE 8 §4.7.3).

ghost use Rattle.jvm_class_formats.specs.Formats.{counted, optional, times};
ghost use Rattle.jvm_class_formats.specs.Reads.{Reads};
ghost use Rattle.jvm_class_grammar.specs.Grammar as grammar;
ghost use Rattle.jvm_class_types.specs.Seen.{handler_seen};
ghost use Rattle.jvm_maps.specs.Types.{class_inside};
ghost use Rattle.jvm_pool.specs.declared.entries.Entry.TheVariants as entry;
ghost use Rattle.std.specs.Prelude.{◌≡◌, map};

use jvm_class_formats::numbers::half;
use jvm_class_formats::{Place, ReadErr};
use jvm_class_types::Handler;
use jvm_mentions::class_name;
use jvm_pool::Pool;
use kt_base::Name;
use std::alloc::Global;

/// The class that a handler catches, or none where the index is 0.
fn catch<'a>(
    pool: &Pool,
    alloc: Global,
    place: Place<'a>,
) -> Result<(Option<Name>, Place<'a>), ReadErr>
    ensures { Reads (λ x. (x.0, x.1)) result
        ((optional pool.now entry.Class class_inside).read place.entry) }
{
    let index = Place {
        total: place.total,
        counter: place.counter,
        bytes: place.bytes,
    };
    let (number, rest) = half(place)?;
    if number == 0 {
        return Ok((None, rest));
    }
    let (name, rest) = class_name(pool, alloc, index)?;
    Ok((Some(name), rest))
}

/// An entry of an exception table.
fn handler<'a>(
    pool: &Pool,
    alloc: Global,
    place: Place<'a>,
) -> Result<(Handler, Place<'a>), ReadErr>
    ensures { Reads (λ x. (handler_seen x.0, x.1)) result ((grammar.handler pool.now).read place.entry) }
{
    let (start, place) = half(place)?;
    let (end, place) = half(place)?;
    let (handler, place) = half(place)?;
    let (catch, place) = catch(pool, alloc, place)?;
    Ok((
        Handler {
            start,
            end,
            handler,
            catch,
        },
        place,
    ))
}

/// So many entries.
fn some_handlers<'a>(
    pool: &Pool,
    alloc: Global,
    count: u16,
    place: Place<'a>,
) -> Result<(Vec<Handler>, Place<'a>), ReadErr>
    ensures { Reads (λ x. (map handler_seen x.0.items, x.1)) result
        ((times (grammar.handler pool.now) count).read place.entry) }
{
    let mut handlers = Vec::new(alloc);
    let mut spot = place;
    for i in 0..count {
        let (handler, behind) = handler(pool, alloc, spot)?;
        handlers.push(handler)?;
        spot = behind;
    }
    Ok((handlers, spot))
}

/// An exception table: its entries behind their number. Refused at the first item in file order that breaks its rule.
pub fn handlers<'a>(
    pool: &Pool,
    alloc: Global,
    place: Place<'a>,
) -> Result<(Vec<Handler>, Place<'a>), ReadErr>
    ensures { Reads (λ x. (map handler_seen x.0.items, x.1)) result
        ((counted (grammar.handler pool.now)).read place.entry) }
{
    let (count, place) = half(place)?;
    some_handlers(pool, alloc, count, place)
}
