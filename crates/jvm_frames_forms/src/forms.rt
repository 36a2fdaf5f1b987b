//! The first form that fits a frame.

ghost use Rattle.jvm_frames_forms.specs.FormsSeen.{form_seen, IsForm};
ghost use Rattle.jvm_frames_forms.specs.KindsSeen.{kind_seen, IsKind};
ghost use Rattle.jvm_maps.specs.Frames as frames;
ghost use Rattle.jvm_maps.specs.Frames.{appended, chopped, form_with, kind_of, one_to_three};
ghost use Rattle.jvm_maps.specs.Types.{same_types};
ghost use Rattle.std.specs.Prelude.{◌≡◌, ◌<◌, ◌≤◌, [], find, if◌then◌else◌, length, nat_lt, IfSome};

use crate::kinds::Kind;
use crate::types::are_same;
use jvm_class_types::FrameType;

/// A frame as it is written against the one before (§4.7.4). Each form has its delta; a near one has it in the tag.
#[derive(Clone, Copy)]
pub enum Form<'a> {
    /// The locals of the frame before, and an empty stack. The delta is below 64.
    Same(u8),
    /// The same with one type on the stack. The delta is below 64.
    SameOne(u8, &'a FrameType),
    /// The same with one type on the stack, and any delta.
    SameOneFar(u16, &'a FrameType),
    /// Without the last locals of the frame before, so many, and with an empty stack.
    Chop(u8, u16),
    /// The locals of the frame before, and an empty stack, with any delta.
    SameFar(u16),
    /// With more locals than the frame before, so many, and with an empty stack.
    Append(u8, u16, &'a [FrameType]),
    /// All locals, and the stack.
    Full(u16, &'a [FrameType], &'a [FrameType]),
}

impl<'a> Form<'a> {
    /// The kind of the form, by which it has its tag.
    pub fn kind(&self) -> Kind
        requires { IsForm self.now }
        ensures seen { kind_seen result ≡ kind_of (form_seen self.now) }
        ensures bounded { IsKind result }
    {
        match self {
            Form::Same(delta) => Kind::Same(*delta),
            Form::SameOne(delta, _) => Kind::SameOne(*delta),
            Form::SameOneFar(_, _) => Kind::SameOneFar,
            Form::Chop(count, _) => Kind::Chop(*count),
            Form::SameFar(_) => Kind::SameFar,
            Form::Append(count, _, _) => Kind::Append(*count),
            Form::Full(_, _, _) => Kind::Full,
        }
    }
}

/// Whether the locals are those before without the last, so many of them.
fn lacks(before: &[FrameType], locals: &[FrameType], count: usize) -> bool
    ensures { result ≡ frames.lacks before.now locals.now count }
{
    count <= before.len() && are_same(locals, &before[..before.len() - count])
}

/// How many of the last locals before are missing, 1 to 3.
fn lacking(before: &[FrameType], locals: &[FrameType]) -> Option<u8>
    ensures some { IfSome result (λ count. (0 < count) × (count ≤ 3)) }
    ensures value { result ≡ find (frames.lacks before.now locals.now) one_to_three }
{
    if lacks(before, locals, 1) {
        Some(1)
    } else if lacks(before, locals, 2) {
        Some(2)
    } else if lacks(before, locals, 3) {
        Some(3)
    } else {
        None
    }
}

/// Whether the locals are those before with so many more behind them.
fn has_more(before: &[FrameType], locals: &[FrameType], count: usize) -> bool
    requires { count < 4 }
    ensures { result ≡ frames.has_more before.now locals.now count }
{
    before.len() <= locals.len()
        && locals.len() - before.len() == count
        && are_same(&locals[..before.len()], before)
}

/// How many more locals there are behind those before, 1 to 3.
fn exceeding(before: &[FrameType], locals: &[FrameType]) -> Option<u8>
    ensures more { IfSome result (λ count. length before.now ≤ length locals.now) }
    ensures some { IfSome result (λ count. (0 < count) × (count ≤ 3)) }
    ensures value { result ≡ find (frames.has_more before.now locals.now) one_to_three }
{
    if has_more(before, locals, 1) {
        Some(1)
    } else if has_more(before, locals, 2) {
        Some(2)
    } else if has_more(before, locals, 3) {
        Some(3)
    } else {
        None
    }
}

/// The form of a frame that has the locals of the frame before, and an empty stack.
fn same<'a>(delta: u16) -> Form<'a>
    ensures seen { form_seen result
        ≡ (if nat_lt delta 64 then frames.Same delta else frames.SameFar delta) }
    ensures bounded { IsForm result }
{
    if delta < 64 {
        Form::Same(delta as u8)
    } else {
        Form::SameFar(delta)
    }
}

/// The form of a frame that has the locals of the frame before, and this type on the stack.
fn same_one<'a>(delta: u16, one: &'a FrameType) -> Form<'a>
    ensures seen { form_seen result
        ≡ (if nat_lt delta 64 then frames.SameOne delta one.now else frames.SameOneFar delta one.now) }
    ensures bounded { IsForm result }
{
    if delta < 64 {
        Form::SameOne(delta as u8, one)
    } else {
        Form::SameOneFar(delta, one)
    }
}

/// The form of a frame with an empty stack, where locals are neither the same nor chopped.
fn longer<'a>(
    before: &[FrameType],
    delta: u16,
    locals: &'a [FrameType],
    stack: &'a [FrameType],
) -> Form<'a>
    requires { stack.now ≡ [] }
    ensures seen { form_seen result
        ≡ appended before.now delta locals.now (find (frames.has_more before.now locals.now) one_to_three) }
    ensures bounded { IsForm result }
{
    match exceeding(before, locals) {
        Some(count) => Form::Append(count, delta, &locals[before.len()..]),
        None => Form::Full(delta, locals, stack),
    }
}

/// The form of a frame with an empty stack, whose locals aren't the same.
fn changed<'a>(
    before: &[FrameType],
    delta: u16,
    locals: &'a [FrameType],
    stack: &'a [FrameType],
) -> Form<'a>
    requires { stack.now ≡ [] }
    ensures seen { form_seen result
        ≡ chopped before.now delta locals.now (find (frames.lacks before.now locals.now) one_to_three) }
    ensures bounded { IsForm result }
{
    match lacking(before, locals) {
        Some(count) => Form::Chop(count, delta),
        None => longer(before, delta, locals, stack),
    }
}

/// The first form that fits a frame with these types, where these are the locals of the frame before: the same locals,
/// the same with one type on the stack, fewer locals, more, and all types; a delta above 63 stands behind the tag.
pub fn form_of<'a>(
    before: &[FrameType],
    delta: u16,
    locals: &'a [FrameType],
    stack: &'a [FrameType],
) -> Form<'a>
    ensures seen { form_seen result ≡ form_with before.now delta locals.now stack.now }
    ensures bounded { IsForm result }
{
    match stack {
        [] => {
            if are_same(locals, before) {
                same(delta)
            } else {
                changed(before, delta, locals, stack)
            }
        }
        [one] => {
            if are_same(locals, before) {
                same_one(delta, one)
            } else {
                Form::Full(delta, locals, stack)
            }
        }
        _ => Form::Full(delta, locals, stack),
    }
}
