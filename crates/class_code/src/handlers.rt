//! Exception tables (JVMS SE 8 §4.7.3).

ghost use Rattle.class_code.specs.Code.{caught, linked_handler};
ghost use Rattle.std.specs.Prelude.{◌≡◌, IfOk, map};

use class_constants::class_of;
use class_headers::ClassTable;
use class_linked::LinkedHandler;
use jvm_class_types::Handler;
use kt_base::{Name, NoMemory};
use sqlite_items::Items;
use std::alloc::Global;

/// The number of `java/lang/Throwable`.
const THROWABLE: usize = 6;

fn caught(headers: &ClassTable, catch: &Option<Name>) -> usize
    ensures { result ≡ caught headers.now catch.now }
{
    match catch {
        None => THROWABLE,
        Some(name) => class_of(headers, name.as_bytes()),
    }
}

fn linked_handler(headers: &ClassTable, handler: &Handler) -> LinkedHandler
    ensures { result ≡ linked_handler headers.now handler.now }
{
    LinkedHandler {
        start: handler.start,
        end: handler.end,
        handler: handler.handler,
        catch: caught(headers, &handler.catch),
    }
}

/// The exception table of a method, each class that it names by its number.
pub(crate) fn linked_handlers(
    alloc: Global,
    headers: &ClassTable,
    handlers: &[Handler],
) -> Result<Items<LinkedHandler>, NoMemory>
    ensures { IfOk result (λ made. made ≡ map (linked_handler headers.now) handlers.now) }
{
    let mut made = Items::new(alloc);
    for handler in handlers {
        made.push(linked_handler(headers, handler))?;
    }
    Ok(made)
}
