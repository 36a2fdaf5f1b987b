//! Exception tables (JVMS SE 8 §4.7.3).

ghost use Rattle.jvm_class_formats.specs.Formats.{counted, optional_spell};
ghost use Rattle.jvm_class_grammar.specs.Grammar as grammar;
ghost use Rattle.jvm_class_types.specs.Seen.{handler_seen};
ghost use Rattle.jvm_pieces.specs.Pieces.{pieces};
ghost use Rattle.jvm_pool.specs.declared.entries.Entry.TheVariants as entry;
ghost use Rattle.std.specs.List.{flat_map};
ghost use Rattle.std.specs.Prelude.{◌≡◌, ◌<◌, ◌^◌, ◌++◌, length, map, OnOk};

use crate::items::{put_class, put_half};
use jvm_class_types::Handler;
use jvm_pool::Pool;
use kt_base::{Name, NoMemory};

/// Appends the index of the class that is caught, or 0 for every throwable.
fn put_catch(catch: &Option<Name>, pool: &Pool, into: &mut Vec<u8>) -> Result<(), NoMemory>
    ensures { OnOk result (into.new.items
        ≡ into.old.items ++ pieces pool.now (optional_spell entry.Class catch.now)) }
{
    match catch {
        Some(name) => put_class(name, pool, into),
        None => put_half(0, into),
    }
}

/// Appends an entry of an exception table.
#[tactic(auto, using(crate::proofs::Appends::three_and_more))]
fn put_handler(handler: &Handler, pool: &Pool, into: &mut Vec<u8>) -> Result<(), NoMemory>
    ensures { OnOk result (into.new.items
        ≡ into.old.items ++ pieces pool.now ((grammar.handler pool.now).spell (handler_seen handler.now))) }
{
    put_half(handler.start, into)?;
    put_half(handler.end, into)?;
    put_half(handler.handler, into)?;
    put_catch(&handler.catch, pool, into)?;
    Ok(())
}

/// Appends each of these entries.
fn put_each(handlers: &[Handler], pool: &Pool, into: &mut Vec<u8>) -> Result<(), NoMemory>
    ensures { OnOk result (into.new.items ≡ into.old.items
        ++ pieces pool.now (flat_map (grammar.handler pool.now).spell (map handler_seen handlers.now))) }
{
    for handler in handlers {
        put_handler(handler, pool, into)?;
    }
    Ok(())
}

/// Appends an exception table: its entries behind their number.
pub fn put_handlers(handlers: &[Handler], pool: &Pool, into: &mut Vec<u8>) -> Result<(), NoMemory>
    requires { length handlers.now < 2 ^ 16 }
    ensures { OnOk result (into.new.items ≡ into.old.items
        ++ pieces pool.now ((counted (grammar.handler pool.now)).spell (map handler_seen handlers.now))) }
{
    put_half(handlers.len() as u16, into)?;
    put_each(handlers, pool, into)?;
    Ok(())
}
