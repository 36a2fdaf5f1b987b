//! The frame at the start of a method (JVMS SE 8 §4.10.1.6).

ghost use Rattle.jvm_class_grammar.specs.Grammar as grammar;
ghost use Rattle.jvm_class_grammar.specs.Grammar.{in_frame};
ghost use Rattle.jvm_class_grammar.specs.Kinds.{text_is};
ghost use Rattle.jvm_class_start.specs.Arguments.{start_locals, type_seen, IsAsciiType};
ghost use Rattle.std.specs.Prelude.{◌≡◌, codes, IfOk};

use crate::arguments::{argument, behind_open};
use crate::types::ArgumentType;
use jvm_class_types::{FrameType, MethodFlags};
use kt_base::{Name, NoMemory};
use std::alloc::Global;

/// Whether a method of this name is a constructor.
pub fn is_constructor(name: &[u8]) -> bool
    ensures { result ≡ text_is (codes "<init>") name.now }
{
    name == b"<init>".as_slice()
}

/// The type in a frame of a parameter.
fn in_frame(alloc: Global, found: ArgumentType<'_>) -> Result<FrameType, NoMemory>
    requires { IsAsciiType found }
    ensures { IfOk result (λ frame_type. frame_type ≡ in_frame (type_seen found.entry)) }
{
    match found {
        ArgumentType::Int | ArgumentType::Bool | ArgumentType::Char => Ok(FrameType::Integer),
        ArgumentType::Long => Ok(FrameType::Long),
        ArgumentType::Class(name) => Ok(FrameType::Object(Name::of(alloc, name)?)),
        ArgumentType::IntArray => Ok(FrameType::Object(Name::of(alloc, b"[I")?)),
        ArgumentType::ObjectArray => {
            Ok(FrameType::Object(Name::of(alloc, b"[Ljava/lang/Object;")?))
        }
    }
}

/// The type of the receiver of a method of a class, in a list; a static method has none.
fn receiver(
    alloc: Global,
    class: &Name,
    flags: MethodFlags,
    name: &Name,
) -> Result<Vec<FrameType>, NoMemory>
    ensures { IfOk result (λ types. types.items ≡ grammar.receiver class.now flags name.now) }
{
    let mut types = Vec::new(alloc);
    match flags {
        MethodFlags::Static => {}
        MethodFlags::Instance | MethodFlags::Abstract => {
            if is_constructor(name.as_bytes()) {
                types.push(FrameType::UninitializedThis)?;
            } else {
                types.push(FrameType::Object(class.clone()?))?;
            }
        }
    }
    Ok(types)
}

/// The types of the local variables that a method of a class starts with: the receiver, which in a constructor isn't an
/// object of its class yet, and the parameters.
pub fn start_types(
    alloc: Global,
    class: &Name,
    flags: MethodFlags,
    name: &Name,
    descriptor: &Name,
) -> Result<Vec<FrameType>, NoMemory>
    ensures { IfOk result (λ types. types.items ≡ start_locals class.now flags name.now descriptor.now) }
{
    let mut types = receiver(alloc, class, flags, name)?;
    let start = behind_open(descriptor.as_bytes());
    let mut rest = start;
    for i in 0..start.len() {
        match argument(rest) {
            Some((found, behind)) => {
                types.push(in_frame(alloc, found)?)?;
                rest = behind;
            }
            None => return Ok(types),
        }
    }
    Ok(types)
}
