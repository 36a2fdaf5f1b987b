//! Frames as they are written (JVMS SE 8 §4.7.4).

ghost use Rattle.jvm_class_types.specs.Seen.{frame_seen};
ghost use Rattle.jvm_frames.specs.Fitting.{counted_pieces, delta_pieces, form_pieces, type_pieces, type_rest, types_in};
ghost use Rattle.jvm_frames.specs.Fitting.{FitsCounted, FitsForm, FitsType, FitsTypes};
ghost use Rattle.jvm_frames.specs.Putting.{frames_of, HasSpelling, HaveSpelling, Puts};
ghost use Rattle.jvm_frames_forms.specs.FormsSeen.{form_seen, IsForm};
ghost use Rattle.jvm_maps.specs.Frames as frames;
ghost use Rattle.jvm_maps.specs.Frames.{before, delta_of, frames_spell};
ghost use Rattle.jvm_maps.specs.Types.{type_tag};
ghost use Rattle.jvm_pieces.specs.Pieces.{draft, mentions, with_pieces, Mention};
ghost use Rattle.jvm_pool.specs.declared.entries.Entry.{Entry};
ghost use Rattle.jvm_pool.specs.declared.entries.Entry.TheVariants as entry;
ghost use Rattle.jvm_pool.specs.Entries.{units};
ghost use Rattle.jvm_pool.specs.Mentions.{with_mentions};
ghost use Rattle.std.specs.List.{flat_map};
ghost use Rattle.std.specs.Prelude.{◌≡◌, ◌+◌, ◌≤◌, ◌<◌, [], ◌∷◌, ◌++◌, List, map, OnOk, OnErr, Err, None};

use jvm_class_types::constants::{
    ITEM_INTEGER, ITEM_LONG, ITEM_NULL, ITEM_OBJECT, ITEM_TOP, ITEM_UNINITIALIZED,
    ITEM_UNINITIALIZED_THIS,
};
use jvm_class_types::{Frame, FrameType, Method};
use jvm_frames_forms::Form;
use jvm_frames_forms::forms::form_of;
use jvm_pieces::{put_bytes, put_mention};
use jvm_pool::{Entry, Pool, PoolErr};
use kt_base::{Name, NoMemory};

/// The tag of a type.
fn tag_of(frame_type: &FrameType) -> u8
    ensures { result ≡ type_tag frame_type.now }
{
    match frame_type {
        FrameType::Top => ITEM_TOP,
        FrameType::Integer => ITEM_INTEGER,
        FrameType::Long => ITEM_LONG,
        FrameType::Null => ITEM_NULL,
        FrameType::UninitializedThis => ITEM_UNINITIALIZED_THIS,
        FrameType::Object(_) => ITEM_OBJECT,
        FrameType::Uninitialized(_) => ITEM_UNINITIALIZED,
    }
}

/// Appends the mention of a class.
fn put_class(name: &Name, pool: &mut Pool, into: &mut Vec<u8>) -> Result<(), PoolErr>
    ensures { Puts (draft pool.old into.old.items) (draft pool.new into.new.items) (Mention (entry.Class name.now) ∷ [])
        result }
{
    let class = Entry::Class(name.clone()?);
    put_mention(&class, pool, into)
}

/// Appends what stands behind the tag of a type.
#[tactic(auto, unfolding(jvm_pieces::specs::Pieces::with_pieces))]
fn put_behind_tag(
    frame_type: &FrameType,
    pool: &mut Pool,
    into: &mut Vec<u8>,
) -> Result<(), PoolErr>
    requires { FitsType frame_type.now }
    ensures { Puts (draft pool.old into.old.items) (draft pool.new into.new.items) (type_rest frame_type.now) result }
{
    match frame_type {
        FrameType::Object(name) => put_class(name, pool, into),
        FrameType::Uninitialized(at) => {
            put_bytes(&(*at as u16).to_be_bytes(), into)?;
            Ok(())
        }
        FrameType::Top
        | FrameType::Integer
        | FrameType::Long
        | FrameType::Null
        | FrameType::UninitializedThis => Ok(()),
    }
}

/// Appends a type.
fn put_type(frame_type: &FrameType, pool: &mut Pool, into: &mut Vec<u8>) -> Result<(), PoolErr>
    requires { FitsType frame_type.now }
    ensures { Puts (draft pool.old into.old.items) (draft pool.new into.new.items) (type_pieces frame_type.now) result }
{
    put_bytes(&tag_of(frame_type).to_be_bytes(), into)?;
    put_behind_tag(frame_type, pool, into)
}

/// Appends types, one by one.
fn put_types(types: &[FrameType], pool: &mut Pool, into: &mut Vec<u8>) -> Result<(), PoolErr>
    requires { FitsTypes types.now }
    ensures { Puts (draft pool.old into.old.items) (draft pool.new into.new.items)
        (flat_map type_pieces types.now) result }
{
    for frame_type in types {
        put_type(frame_type, pool, into)?;
    }
    Ok(())
}

/// Appends types behind their number.
fn put_counted(types: &[FrameType], pool: &mut Pool, into: &mut Vec<u8>) -> Result<(), PoolErr>
    requires { FitsCounted types.now }
    ensures { Puts (draft pool.old into.old.items) (draft pool.new into.new.items) (counted_pieces types.now) result }
{
    put_bytes(&(types.len() as u16).to_be_bytes(), into)?;
    put_types(types, pool, into)
}

/// Appends all locals and the stack, each behind their number.
fn put_both(
    locals: &[FrameType],
    stack: &[FrameType],
    pool: &mut Pool,
    into: &mut Vec<u8>,
) -> Result<(), PoolErr>
    requires locals { FitsCounted locals.now }
    requires stack { FitsCounted stack.now }
    ensures { Puts (draft pool.old into.old.items) (draft pool.new into.new.items)
        (counted_pieces locals.now ++ counted_pieces stack.now) result }
{
    put_counted(locals, pool, into)?;
    put_counted(stack, pool, into)
}

/// Appends the delta of a form that isn't near.
#[tactic(auto, unfolding(jvm_pieces::specs::Pieces::with_pieces))]
fn put_delta(form: &Form<'_>, into: &mut Vec<u8>) -> Result<(), NoMemory>
    ensures ok { (es : List Entry) → OnOk result
        (draft es into.new.items ≡ with_pieces (delta_pieces (form_seen form.now)) (draft es into.old.items)) }
    ensures err { OnErr result (into.new.items ≡ into.old.items) }
{
    match form {
        Form::Same(_) | Form::SameOne(_, _) => Ok(()),
        Form::SameOneFar(delta, _)
        | Form::Chop(_, delta)
        | Form::SameFar(delta)
        | Form::Append(_, delta, _)
        | Form::Full(delta, _, _) => put_bytes(&delta.to_be_bytes(), into),
    }
}

/// Appends the types that a form has.
#[tactic(auto, unfolding(jvm_pieces::specs::Pieces::with_pieces))]
fn put_types_in(form: &Form<'_>, pool: &mut Pool, into: &mut Vec<u8>) -> Result<(), PoolErr>
    requires { FitsForm (form_seen form.now) }
    ensures { Puts (draft pool.old into.old.items) (draft pool.new into.new.items)
        (types_in (form_seen form.now)) result }
{
    match form {
        Form::Same(_) | Form::Chop(_, _) | Form::SameFar(_) => Ok(()),
        Form::SameOne(_, one) | Form::SameOneFar(_, one) => put_type(one, pool, into),
        Form::Append(_, _, more) => put_types(more, pool, into),
        Form::Full(_, locals, stack) => put_both(locals, stack, pool, into),
    }
}

/// Appends a frame in its form.
fn put_form(form: &Form<'_>, pool: &mut Pool, into: &mut Vec<u8>) -> Result<(), PoolErr>
    requires form { IsForm form.now }
    requires fits { FitsForm (form_seen form.now) }
    ensures { Puts (draft pool.old into.old.items) (draft pool.new into.new.items)
        (form_pieces (form_seen form.now)) result }
{
    put_bytes(&form.kind().tag().to_be_bytes(), into)?;
    put_delta(form, into)?;
    put_types_in(form, pool, into)
}

/// The delta of a frame at an offset.
fn delta_at(previous: Option<u32>, offset: u32) -> u32
    ensures { result ≡ delta_of previous offset }
{
    match previous {
        None => offset,
        Some(previous) => offset.saturating_sub(previous).saturating_sub(1),
    }
}

/// Appends a frame behind the one before, of which these are the offset, if there is one, and the locals: in the first
/// form that fits. An error may leave a part of it.
fn put_frame(
    previous: Option<u32>,
    locals: &[FrameType],
    frame: &Frame,
    pool: &mut Pool,
    into: &mut Vec<u8>,
) -> Result<(), PoolErr>
    requires { HasSpelling (before previous locals.now) (frame_seen frame.now) }
    ensures { (es : List Entry) → Puts (draft pool.old into.old.items) (draft pool.new into.new.items)
        ((frames.frame es (before previous locals.now)).spell (frame_seen frame.now)) result }
{
    let delta = delta_at(previous, frame.offset) as u16;
    let form = form_of(locals, delta, &frame.locals, &frame.stack);
    put_form(&form, pool, into)
}

/// Appends frames, one behind the other. An error may leave some of them.
fn put_each(
    start: &[FrameType],
    frames: &[Frame],
    pool: &mut Pool,
    into: &mut Vec<u8>,
) -> Result<(), PoolErr>
    requires { HaveSpelling (before None start.now) (map frame_seen frames.now) }
    ensures { (es : List Entry) → Puts (draft pool.old into.old.items) (draft pool.new into.new.items)
        (frames_spell es (before None start.now) (map frame_seen frames.now)) result }
{
    let mut previous = None;
    let mut locals = start;
    for frame in frames {
        put_frame(previous, locals, frame, pool, into)?;
        previous = Some(frame.offset);
        locals = &frame.locals;
    }
    Ok(())
}

/// Appends frames as they stand in a StackMapTable behind their number, where these are the locals at the start of the
/// method, and adds the classes that they mention to the pool.
///
/// `Full` comes exactly where the pool's count would pass 65,535. An error leaves the pool and `into` as they were.
pub fn put_all(
    start: &[FrameType],
    frames: &[Frame],
    pool: &mut Pool,
    into: &mut Vec<u8>,
) -> Result<(), PoolErr>
    requires { HaveSpelling (before None start.now) (map frame_seen frames.now) }
    ensures ok { (es : List Entry) → OnOk result (draft pool.new into.new.items
        ≡ with_pieces (frames_spell es (before None start.now) (map frame_seen frames.now))
        (draft pool.old into.old.items)) }
    ensures room { (es : List Entry) → OnOk result (1 + units (with_mentions
        (mentions (frames_spell es (before None start.now) (map frame_seen frames.now))) pool.old) ≤ 65535) }
    ensures full { (es : List Entry) → result ≡ Err PoolErr.Full → 65535 < 1 + units (with_mentions
        (mentions (frames_spell es (before None start.now) (map frame_seen frames.now))) pool.old) }
    ensures err { OnErr result ((pool.new ≡ pool.old) × (into.new.items ≡ into.old.items)) }
{
    let entries = pool.len();
    let bytes = into.len();
    match put_each(start, frames, pool, into) {
        Ok(()) => {
            has_room(pool);
            Ok(())
        }
        Err(error) => {
            pool.truncate(entries);
            into.truncate(bytes);
            Err(error)
        }
    }
}

/// A pool's count fits two bytes.
fn has_room(pool: &Pool)
    ensures { 1 + units pool.now ≤ 65535 }
{
    let _count = pool.count();
}

/// Appends the frames of a method as `put_all` does, where `first` is the frame at its start.
#[tactic(auto, unfolding(jvm_pieces::specs::Pieces::with_pieces, jvm_pool::specs::Mentions::with_mentions))]
pub fn put_frames(
    m: &Method,
    first: &Frame,
    pool: &mut Pool,
    into: &mut Vec<u8>,
) -> Result<(), PoolErr>
    requires { HaveSpelling (before None first.now.locals.items) (frames_of m.now) }
    ensures ok { (es : List Entry) → OnOk result (draft pool.new into.new.items
        ≡ with_pieces (frames_spell es (before None first.now.locals.items) (frames_of m.now))
        (draft pool.old into.old.items)) }
    ensures room { (es : List Entry) → OnOk result (1 + units (with_mentions
        (mentions (frames_spell es (before None first.now.locals.items) (frames_of m.now))) pool.old) ≤ 65535) }
    ensures full { (es : List Entry) → result ≡ Err PoolErr.Full → 65535 < 1 + units (with_mentions
        (mentions (frames_spell es (before None first.now.locals.items) (frames_of m.now))) pool.old) }
    ensures err { OnErr result ((pool.new ≡ pool.old) × (into.new.items ≡ into.old.items)) }
{
    match &m.code {
        Some(code) => put_all(&first.locals, &code.frames, pool, into),
        None => {
            has_room(pool);
            Ok(())
        }
    }
}
