//! Stack map frames by letters: `T` top, `I` an `int`, `J` a `long`, `N` null, `U` the uninitialized `this`, `@` an
//! object that the instruction at 160 made, and classes, `A` and `O` for the arrays, `W` for the class itself, `S` for
//! its interface, `H` for a throwable.

use crate::errors::Unbuilt;
use crate::pool::name;
use jvm_class_types::{Frame, FrameType};
use std::alloc::Global;

/// The frame of the constructor.
pub(crate) fn constructor_rows() -> &'static [(u32, &'static str, &'static str)] {
    &[(5, "UI", "U")]
}

/// The frames of the method with each kind of mention.
pub(crate) fn mention_rows() -> &'static [(u32, &'static str, &'static str)] {
    &[
        (0, "IJIIAOW", ""),
        (40, "IJIIAOW", ""),
        (76, "IJIIAOW", ""),
        (101, "IJIIAOW", ""),
        (120, "T", "H"),
    ]
}

/// The frames of the last method, which take each form.
pub(crate) fn form_rows() -> &'static [(u32, &'static str, &'static str)] {
    &[
        (80, "I", ""),
        (160, "I", "N"),
        (164, "ITJN", ""),
        (166, "I", ""),
        (168, "IW@", ""),
        (170, "I", ""),
        (172, "II", ""),
        (174, "I", ""),
        (176, "I", ""),
        (178, "I", "S"),
        (180, "JJ", "IN"),
    ]
}

/// The name of the class that a letter stands for.
fn class_name(letter: char) -> &'static str {
    match letter {
        'A' => "[I",
        'O' => "[Ljava/lang/Object;",
        'W' => "a/Whole",
        'S' => "a/Shape",
        _ => "java/lang/Throwable",
    }
}

/// The type that a letter stands for.
fn frame_type(alloc: Global, letter: char) -> Result<FrameType, Unbuilt> {
    match letter {
        'T' => Ok(FrameType::Top),
        'I' => Ok(FrameType::Integer),
        'J' => Ok(FrameType::Long),
        'N' => Ok(FrameType::Null),
        'U' => Ok(FrameType::UninitializedThis),
        '@' => Ok(FrameType::Uninitialized(160)),
        _ => Ok(FrameType::Object(name(alloc, class_name(letter))?)),
    }
}

fn types(alloc: Global, letters: &str) -> Result<Vec<FrameType>, Unbuilt> {
    let mut types = Vec::new(alloc);
    for letter in letters.chars() {
        types.push(frame_type(alloc, letter)?)?;
    }
    Ok(types)
}

fn frame(alloc: Global, offset: u32, locals: &str, stack: &str) -> Result<Frame, Unbuilt> {
    let locals = types(alloc, locals)?;
    let stack = types(alloc, stack)?;
    Ok(Frame {
        offset,
        locals,
        stack,
    })
}

/// The frames of these rows: the offset, the local variables and the operand stack of each.
pub(crate) fn frames(
    alloc: Global,
    rows: &[(u32, &'static str, &'static str)],
) -> Result<Vec<Frame>, Unbuilt> {
    let mut frames = Vec::new(alloc);
    for (offset, locals, stack) in rows {
        frames.push(frame(alloc, *offset, locals, stack)?)?;
    }
    Ok(frames)
}
