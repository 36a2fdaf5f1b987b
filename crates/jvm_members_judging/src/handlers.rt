//! Exception tables (JVMS SE 8 §4.7.3).

ghost use Rattle.jvm_class_judging.specs.Judging.{judge_handler};
ghost use Rattle.jvm_class_tally.specs.Tallies.{judge_counted, judge_each, judge_optional};
ghost use Rattle.jvm_class_types.specs.Seen.{handler_seen};
ghost use Rattle.jvm_pool.specs.declared.entries.Entry.TheVariants as entry;
ghost use Rattle.std.specs.Prelude.{◌≡◌, map, true};

use crate::names::class_name;
use jvm_class_tally::Tally;
use jvm_class_types::Handler;
use jvm_pool::Pool;
use kt_base::Name;

/// The tally behind the class that is caught, or behind 0 for every throwable.
fn catch(pool: &Pool, catch: &Option<Name>, tally: Tally) -> Option<Tally>
    ensures { result ≡ judge_optional pool.now entry.Class (λ name. true) catch.now tally }
{
    match catch {
        Some(name) => class_name(pool, name, tally),
        None => tally.half(0),
    }
}

/// The tally behind an entry of an exception table.
fn handler(pool: &Pool, handler: &Handler, tally: Tally) -> Option<Tally>
    ensures { result ≡ judge_handler pool.now (handler_seen handler.now) tally }
{
    let tally = tally.half(handler.start)?;
    let tally = tally.half(handler.end)?;
    let tally = tally.half(handler.handler)?;
    catch(pool, &handler.catch, tally)
}

/// The tally behind each of these entries.
fn each(pool: &Pool, handlers: &[Handler], before: Tally) -> Option<Tally>
    ensures { result ≡ judge_each (judge_handler pool.now) (map handler_seen handlers.now) before }
{
    let mut tally = before;
    for one in handlers {
        tally = handler(pool, one, tally)?;
    }
    Some(tally)
}

/// The tally behind an exception table and its number.
pub fn handlers(pool: &Pool, handlers: &[Handler], tally: Tally) -> Option<Tally>
    ensures { result ≡ judge_counted (judge_handler pool.now) (map handler_seen handlers.now) tally }
{
    let tally = tally.count(handlers.len())?;
    each(pool, handlers, tally)
}
