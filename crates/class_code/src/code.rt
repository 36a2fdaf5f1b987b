//! The code of a method (JVMS SE 8 §4.7.3).

ghost use Rattle.class_code.specs.Code.{linked_code, linked_frame, linked_handler};
ghost use Rattle.std.specs.Prelude.{◌≡◌, IfOk, map};

use crate::frames::linked_frames;
use crate::handlers::linked_handlers;
use class_headers::ClassTable;
use class_linked::{LinkedCode, LinkedFrame, LinkedHandler};
use jvm_class_types::Code;
use kt_base::NoMemory;
use sqlite_items::Items;
use std::alloc::Global;

/// What code has beside its instructions.
#[derive(Drop)]
struct Tables {
    handlers: Items<LinkedHandler>,
    frames: Items<LinkedFrame>,
}

fn tables_of(alloc: Global, headers: &ClassTable, code: &Code) -> Result<Tables, NoMemory>
    ensures { IfOk result (λ tables. (tables.handlers ≡ map (linked_handler headers.now) code.now.handlers.items)
        × (tables.frames ≡ map (linked_frame headers.now) code.now.frames.items)) }
{
    let handlers = linked_handlers(alloc, headers, code.handlers.as_slice())?;
    let frames = linked_frames(alloc, headers, code.frames.as_slice())?;
    Ok(Tables { handlers, frames })
}

/// The code, each class that it names by its number. Its instructions are moved.
pub fn linked_code(alloc: Global, headers: &ClassTable, code: Code) -> Result<LinkedCode, NoMemory>
    ensures { IfOk result (λ made. made ≡ linked_code headers.now code) }
{
    match tables_of(alloc, headers, &code) {
        Ok(tables) => Ok(LinkedCode {
            max_stack: code.max_stack,
            max_locals: code.max_locals,
            instructions: Items::from_vec(code.instructions),
            handlers: tables.handlers,
            frames: tables.frames,
        }),
        Err(error) => Err(error),
    }
}
