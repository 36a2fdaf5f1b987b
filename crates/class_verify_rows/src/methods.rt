//! Methods, by their signature and their code.

use crate::parts::{bytes_of, frames_of, handlers_of, value_kind, value_kinds};
use class_linked::{LinkedCode, LinkedMethod, Role};
use jvm_class_types::MethodFlags;
use jvm_code::{Instr, decode};
use kt_base::NoMemory;
use sqlite_items::Items;
use std::alloc::Global;

/// The code of a method, as a line of the table has it.
#[derive(Clone, Copy)]
pub struct Written<'a> {
    pub max_stack: u16,
    pub max_locals: u16,
    pub bytes: &'a str,
    pub frames: &'a str,
    pub handlers: &'a str,
}

/// Code without frames and without an exception table.
pub fn plain(max_stack: u16, max_locals: u16, bytes: &str) -> Written<'_> {
    Written {
        max_stack,
        max_locals,
        bytes,
        frames: "",
        handlers: "",
    }
}

/// The instructions that hexadecimal digits stand for: none where the bytes can't be decoded, which the rules refuse.
fn instructions_of(alloc: Global, hex: &str) -> Result<Vec<(u32, Instr)>, NoMemory> {
    let bytes = bytes_of(alloc, hex)?;
    if bytes.len() < 65_536 {
        match decode(alloc, bytes.as_slice()) {
            Ok(instructions) => Ok(instructions),
            Err(_) => Ok(Vec::new(alloc)),
        }
    } else {
        Ok(Vec::new(alloc))
    }
}

fn code_of(alloc: Global, written: &Written<'_>) -> Result<LinkedCode, NoMemory> {
    let handlers = handlers_of(alloc, written.handlers)?;
    let frames = frames_of(alloc, written.frames)?;
    let instructions = instructions_of(alloc, written.bytes)?;
    Ok(LinkedCode {
        max_stack: written.max_stack,
        max_locals: written.max_locals,
        instructions: Items::from_vec(instructions),
        handlers,
        frames,
    })
}

fn flags_of(how: u8) -> MethodFlags {
    match how {
        b's' => MethodFlags::Static,
        b'a' => MethodFlags::Abstract,
        _ => MethodFlags::Instance,
    }
}

fn role_of(how: u8) -> Role {
    match how {
        b'c' => Role::Constructor,
        b'r' => Role::Resumption,
        _ => Role::Ordinary,
    }
}

/// A method without code. Its signature is `s` for a static one, `i` for one of an object, `a` for an abstract one, `c`
/// for a constructor, `r` for `invokeSuspend`; then the letter of its result, `V` for none, and those of its parameters.
fn declared(alloc: Global, signature: &[u8]) -> Result<LinkedMethod, NoMemory> {
    let (how, result, letters) = match signature {
        [how, result, letters @ ..] => (*how, *result, letters),
        _ => (b's', b'V', [].as_slice()),
    };
    let parameters = value_kinds(alloc, letters)?;
    Ok(LinkedMethod {
        flags: flags_of(how),
        role: role_of(how),
        parameters,
        result: if result == b'V' {
            None
        } else {
            Some(value_kind(result))
        },
        selector: None,
        code: None,
    })
}

/// One method more, with code.
pub fn push_method(
    alloc: Global,
    methods: &mut Items<LinkedMethod>,
    signature: &[u8],
    written: &Written<'_>,
) -> Result<(), NoMemory> {
    let code = code_of(alloc, written)?;
    let method = LinkedMethod {
        code: Some(code),
        ..declared(alloc, signature)?
    };
    Ok(methods.push(method)?)
}

/// One method more, without code.
pub fn push_declared(
    alloc: Global,
    methods: &mut Items<LinkedMethod>,
    signature: &[u8],
) -> Result<(), NoMemory> {
    Ok(methods.push(declared(alloc, signature)?)?)
}
