//! The code of a method (JVMS SE 8 §4.7.3).

ghost use Rattle.jvm_class_formats.specs.Formats.{counted, sized};
ghost use Rattle.jvm_class_grammar.specs.Grammar as grammar;
ghost use Rattle.jvm_class_types.specs.Seen.{code_seen, frame_seen, handler_seen};
ghost use Rattle.jvm_code.specs.Decoding.{rows, IsLaid};
ghost use Rattle.jvm_code.specs.Spelling.{spelling};
ghost use Rattle.jvm_maps.specs.Frames.{before};
ghost use Rattle.jvm_pieces.specs.Pieces.{pieces};
ghost use Rattle.std.specs.Int.{to_be_bytes, w32};
ghost use Rattle.std.specs.Prelude.{◌≡◌, ◌<◌, ◌^◌, ◌++◌, codes, length, map, None, OnOk};

use crate::attributes::{put_behind_length, put_code_attributes, put_code_name};
use class_writer_members::handlers::put_handlers;
use class_writer_members::items::{put_half, put_word};
use jvm_class_types::{Code, FrameType};
use jvm_code::{Instr, encode};
use jvm_pool::Pool;
use kt_base::NoMemory;
use std::alloc::Global;

/// Appends code behind its length.
fn put_instructions(
    instructions: &[(u32, Instr)],
    alloc: Global,
    into: &mut Vec<u8>,
) -> Result<(), NoMemory>
    requires laid { IsLaid (rows instructions.now) }
    requires fits { length (spelling (rows instructions.now)) < 2 ^ 32 }
    ensures { OnOk result (into.new.items ≡ into.old.items
        ++ (to_be_bytes w32 (length (spelling (rows instructions.now))) ++ spelling (rows instructions.now))) }
{
    let bytes = encode(alloc, instructions)?;
    put_behind_length(&bytes, into)?;
    Ok(())
}

/// Appends what stands behind code: its exception table and its frames.
fn put_behind_code(
    code: &Code,
    start: &[FrameType],
    pool: &Pool,
    alloc: Global,
    into: &mut Vec<u8>,
) -> Result<(), NoMemory>
    requires handlers { length code.now.handlers.items < 2 ^ 16 }
    requires frames { (grammar.code_attributes pool.now (before None start.now)).allows
        (map frame_seen code.now.frames.items) }
    ensures { OnOk result (into.new.items ≡ into.old.items
        ++ (pieces pool.now ((counted (grammar.handler pool.now)).spell (map handler_seen code.now.handlers.items))
        ++ pieces pool.now ((grammar.code_attributes pool.now (before None start.now)).spell
        (map frame_seen code.now.frames.items)))) }
{
    put_handlers(&code.handlers, pool, into)?;
    put_code_attributes(&code.frames, start, pool, alloc, into)?;
    Ok(())
}

/// Appends what stands in a Code attribute behind its length.
fn put_body(
    code: &Code,
    start: &[FrameType],
    pool: &Pool,
    alloc: Global,
    into: &mut Vec<u8>,
) -> Result<(), NoMemory>
    requires { (grammar.code_body pool.now (before None start.now)).allows (code_seen code.now) }
    ensures { OnOk result (into.new.items ≡ into.old.items
        ++ pieces pool.now ((grammar.code_body pool.now (before None start.now)).spell (code_seen code.now))) }
{
    put_half(code.max_stack, into)?;
    put_half(code.max_locals, into)?;
    put_instructions(&code.instructions, alloc, into)?;
    put_behind_code(code, start, pool, alloc, into)?;
    Ok(())
}

/// Appends the same behind the length of what stands there.
fn put_sized_body(
    code: &Code,
    start: &[FrameType],
    pool: &Pool,
    alloc: Global,
    into: &mut Vec<u8>,
) -> Result<(), NoMemory>
    requires { (sized (grammar.code_body pool.now (before None start.now))).allows (code_seen code.now) }
    ensures { OnOk result (into.new.items ≡ into.old.items
        ++ pieces pool.now ((sized (grammar.code_body pool.now (before None start.now))).spell
        (code_seen code.now))) }
{
    let mut body = Vec::new(alloc);
    put_body(code, start, pool, alloc, &mut body)?;
    put_behind_length(&body, into)?;
    Ok(())
}

/// Appends a Code attribute of a method that starts with local variables of these types.
pub(crate) fn put_code(
    code: &Code,
    start: &[FrameType],
    pool: &Pool,
    alloc: Global,
    into: &mut Vec<u8>,
) -> Result<(), NoMemory>
    requires { (grammar.attribute pool.now (codes "Code")
        (grammar.code_body pool.now (before None start.now))).allows (code_seen code.now) }
    ensures { OnOk result (into.new.items ≡ into.old.items
        ++ pieces pool.now ((grammar.attribute pool.now (codes "Code")
        (grammar.code_body pool.now (before None start.now))).spell (code_seen code.now))) }
{
    put_code_name(pool, alloc, into)?;
    put_sized_body(code, start, pool, alloc, into)?;
    Ok(())
}
