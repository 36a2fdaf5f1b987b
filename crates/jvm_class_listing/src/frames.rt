//! Frames by the types at the start of the method, and their bytes.

use crate::hex::bytes_of;
use jvm_class_types::{Frame, FrameType};
use jvm_frames::{FrameErr, expand};
use jvm_pool::Pool;
use kt_base::{Name, NoMemory};
use std::alloc::Global;

/// The type that a word stands for: the name of a class, where it is none of the others.
fn type_of(alloc: Global, word: &str) -> Result<FrameType, NoMemory> {
    Ok(match word {
        "top" => FrameType::Top,
        "int" => FrameType::Integer,
        "long" => FrameType::Long,
        "null" => FrameType::Null,
        "this" => FrameType::UninitializedThis,
        name if name.is_ascii() => FrameType::Object(Name::of(alloc, name.as_bytes())?),
        _ => FrameType::Top,
    })
}

/// The frame at the start of a method.
fn start_of(alloc: Global, types: &str) -> Result<Frame, NoMemory> {
    let mut locals = Vec::new(alloc);
    if types != "-" {
        for word in types.split(',') {
            locals.push(type_of(alloc, word)?)?;
        }
    }
    Ok(Frame {
        offset: 0,
        locals,
        stack: Vec::new(alloc),
    })
}

/// The frames that types and bytes stand for, with a blank between them.
pub fn frames_of(alloc: Global, line: &str, pool: &Pool) -> Result<Vec<Frame>, FrameErr> {
    let (types, hex) = line.split_once(' ').unwrap_or((line, ""));
    let start = start_of(alloc, types)?;
    let bytes = bytes_of(alloc, hex)?;
    expand(alloc, &bytes, &start, pool)
}
