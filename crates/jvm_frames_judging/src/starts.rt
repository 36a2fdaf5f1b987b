//! Locals against those that a method starts with (JVMS SE 8 §4.10.1.6), which aren't built for that.

ghost use Rattle.jvm_frames_judging.specs.Starts.{next, start_types, walk};
ghost use Rattle.jvm_class_grammar.specs.Grammar.{in_frame};
ghost use Rattle.jvm_class_grammar.specs.Kinds.{parameters, text_is};
ghost use Rattle.jvm_class_start.specs.Arguments.{type_seen};
ghost use Rattle.jvm_class_types.specs.declared.frames.FrameType.TheVariants as frame_type;
ghost use Rattle.jvm_maps.specs.Types.{same_type};
ghost use Rattle.std.specs.Prelude.{◌≡◌, ◌+◌, ◌≤◌, [], codes, map, option_map, if◌then◌else◌, IfSome};

use jvm_class_start::start::is_constructor;
use jvm_class_start::{ArgumentType, argument, behind_open};
use jvm_class_types::{FrameType, MethodFlags};
use kt_base::Name;

/// What tells the types that a method starts with.
#[derive(Clone, Copy)]
pub struct Start<'a> {
    /// The class of the method.
    pub class: &'a Name,
    pub flags: MethodFlags,
    pub name: &'a Name,
    pub descriptor: &'a Name,
}

/// How locals differ from those at the start.
#[derive(Clone, Copy)]
pub enum Difference {
    /// They are those at the start, and so many behind them.
    More(usize),
    /// They are those at the start without the last, so many of them.
    Fewer(usize),
    /// They differ in a type.
    Other,
}

/// Whether a type is that of a parameter.
fn is_of(found: &FrameType, parameter: ArgumentType<'_>) -> bool
    ensures { result ≡ same_type found.now (in_frame (type_seen parameter.entry)) }
{
    match (found, parameter) {
        (FrameType::Integer, ArgumentType::Int | ArgumentType::Bool | ArgumentType::Char) => true,
        (FrameType::Long, ArgumentType::Long) => true,
        (FrameType::Object(name), ArgumentType::Class(other)) => name.as_bytes() == other,
        (FrameType::Object(name), ArgumentType::IntArray) => name.as_bytes() == b"[I".as_slice(),
        (FrameType::Object(name), ArgumentType::ObjectArray) => {
            name.as_bytes() == b"[Ljava/lang/Object;".as_slice()
        }
        _ => false,
    }
}

/// Whether a type is that of the receiver: of a constructor, an object that isn't one of its class yet.
fn is_receiver(found: &FrameType, class: &Name, name: &Name) -> bool
    ensures { result ≡ same_type found.now
        (if text_is (codes "<init>") name.now then frame_type.UninitializedThis else frame_type.Object class.now) }
{
    if is_constructor(name.as_bytes()) {
        matches!(found, FrameType::UninitializedThis)
    } else {
        match found {
            FrameType::Object(other) => other.as_bytes() == class.as_bytes(),
            _ => false,
        }
    }
}

/// The locals behind that of a parameter, and how many parameters have none: `None` where the local is another.
fn behind<'a>(
    locals: &'a [FrameType],
    lacking: usize,
    parameter: ArgumentType<'_>,
) -> Option<(&'a [FrameType], usize)>
    requires { lacking + 1 ≤ 18446744073709551615 }
    ensures value { option_map (λ x. (x.0.now, x.1)) result
        ≡ next (in_frame (type_seen parameter.entry)) locals.now lacking }
    ensures few { IfSome result (λ x. x.1 ≤ lacking + 1) }
{
    match locals {
        [first, more @ ..] => {
            if is_of(first, parameter) {
                Some((more, lacking))
            } else {
                None
            }
        }
        [] => Some((locals, lacking + 1)),
    }
}

/// How locals differ, where so many are left behind the start, or so many are lacking.
fn ended(locals: &[FrameType], lacking: usize) -> Difference
    ensures { result ≡ walk [] locals.now lacking }
{
    if lacking == 0 {
        Difference::More(locals.len())
    } else {
        Difference::Fewer(lacking)
    }
}

/// How locals differ from the parameters of a method, where so many are lacking already, none or the receiver.
fn difference_of(descriptor: &Name, locals: &[FrameType], lacking: usize) -> Difference
    requires { lacking ≤ 1 }
    ensures { result ≡ walk (map in_frame (parameters descriptor.now)) locals.now lacking }
{
    let start = behind_open(descriptor.as_bytes());
    let mut rest = start;
    let mut left = locals;
    let mut without = lacking;
    for i in 0..start.len() {
        match argument(rest) {
            None => return ended(left, without),
            Some((found, more)) => match behind(left, without, found) {
                None => return Difference::Other,
                Some((others, count)) => {
                    rest = more;
                    left = others;
                    without = count;
                }
            },
        }
    }
    ended(left, without)
}

/// How locals differ from those at the start.
pub fn compared(start: Start<'_>, locals: &[FrameType]) -> Difference
    ensures { result ≡ walk (start_types start.entry) locals.now 0 }
{
    match start.flags {
        MethodFlags::Static => difference_of(start.descriptor, locals, 0),
        MethodFlags::Instance | MethodFlags::Abstract => match locals {
            [first, more @ ..] => {
                if is_receiver(first, start.class, start.name) {
                    difference_of(start.descriptor, more, 0)
                } else {
                    Difference::Other
                }
            }
            [] => difference_of(start.descriptor, locals, 1),
        },
    }
}
