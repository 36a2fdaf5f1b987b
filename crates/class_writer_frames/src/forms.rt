//! A frame in its form (JVMS SE 8 §4.7.4).

ghost use Rattle.class_writer_frames.specs.Tails.{tail, HasTypes};
ghost use Rattle.jvm_class_formats.specs.Formats.{counted};
ghost use Rattle.jvm_frames_forms.specs.FormsSeen.{form_seen, IsForm};
ghost use Rattle.jvm_maps.specs.Frames as frames;
ghost use Rattle.jvm_maps.specs.Types as types;
ghost use Rattle.jvm_pieces.specs.Pieces.{pieces};
ghost use Rattle.std.specs.Int.{to_be_bytes, w16};
ghost use Rattle.std.specs.List.{flat_map, AllByRecursion};
ghost use Rattle.std.specs.Prelude.{◌≡◌, ◌++◌, OnOk};

use crate::types::{put_byte, put_counted, put_type, put_types};
use class_writer_members::items::put_half;
use jvm_class_types::FrameType;
use jvm_class_types::constants::{
    FULL_FRAME, SAME_FRAME_EXTENDED, SAME_LOCALS_1_STACK_ITEM, SAME_LOCALS_1_STACK_ITEM_EXTENDED,
};
use jvm_frames_forms::Form;
use jvm_pool::Pool;
use kt_base::NoMemory;

/// The tag of a form.
fn tag(form: &Form<'_>) -> u8
    requires { IsForm form.now }
    ensures { result ≡ frames.kind_tag (frames.kind_of (form_seen form.now)) }
{
    match form {
        Form::Same(delta) => *delta,
        Form::SameOne(delta, _) => SAME_LOCALS_1_STACK_ITEM + *delta,
        Form::SameOneFar(_, _) => SAME_LOCALS_1_STACK_ITEM_EXTENDED,
        Form::Chop(count, _) => SAME_FRAME_EXTENDED - *count,
        Form::SameFar(_) => SAME_FRAME_EXTENDED,
        Form::Append(count, _, _) => SAME_FRAME_EXTENDED + *count,
        Form::Full(_, _, _) => FULL_FRAME,
    }
}

/// Appends what stands behind the tag of a form.
fn put_tail(form: &Form<'_>, pool: &Pool, into: &mut Vec<u8>) -> Result<(), NoMemory>
    requires { HasTypes pool.now (form_seen form.now) }
    ensures { OnOk result (into.new.items ≡ into.old.items ++ tail pool.now (form_seen form.now)) }
{
    match form {
        Form::Same(_) => Ok(()),
        Form::SameOne(_, one) => put_type(one, pool, into),
        Form::SameOneFar(delta, one) => put_one_far(*delta, one, pool, into),
        Form::Chop(_, delta) | Form::SameFar(delta) => put_half(*delta, into),
        Form::Append(_, delta, more) => put_more(*delta, more, pool, into),
        Form::Full(delta, locals, stack) => put_all(*delta, locals, stack, pool, into),
    }
}

/// Appends a delta and a type.
#[tactic(auto, using(class_writer_members::proofs::Appends::two_parts))]
fn put_one_far(delta: u16, one: &FrameType, pool: &Pool, into: &mut Vec<u8>) -> Result<(), NoMemory>
    requires { (types.frame_type pool.now).allows one.now }
    ensures { OnOk result (into.new.items
        ≡ into.old.items ++ tail pool.now (frames.SameOneFar delta one.now)) }
{
    put_half(delta, into)?;
    put_type(one, pool, into)?;
    Ok(())
}

/// Appends a delta and types.
#[tactic(auto, using(class_writer_members::proofs::Appends::two_parts))]
fn put_more(delta: u16, more: &[FrameType], pool: &Pool, into: &mut Vec<u8>) -> Result<(), NoMemory>
    requires { AllByRecursion (types.frame_type pool.now).allows more.now }
    ensures { OnOk result (into.new.items ≡ into.old.items
        ++ (to_be_bytes w16 delta ++ pieces pool.now (flat_map (types.frame_type pool.now).spell more.now))) }
{
    put_half(delta, into)?;
    put_types(more, pool, into)?;
    Ok(())
}

/// Appends a delta, all locals and the stack.
#[tactic(auto, using(class_writer_members::proofs::Appends::three_parts))]
fn put_all(
    delta: u16,
    locals: &[FrameType],
    stack: &[FrameType],
    pool: &Pool,
    into: &mut Vec<u8>,
) -> Result<(), NoMemory>
    requires locals { (counted (types.frame_type pool.now)).allows locals.now }
    requires stack { (counted (types.frame_type pool.now)).allows stack.now }
    ensures { OnOk result (into.new.items
        ≡ into.old.items ++ tail pool.now (frames.Full delta locals.now stack.now)) }
{
    put_half(delta, into)?;
    put_counted(locals, pool, into)?;
    put_counted(stack, pool, into)?;
    Ok(())
}

/// Appends a frame in its form.
pub(crate) fn put_form(form: &Form<'_>, pool: &Pool, into: &mut Vec<u8>) -> Result<(), NoMemory>
    requires form { IsForm form.now }
    requires allowed { (frames.form pool.now).allows (form_seen form.now) }
    ensures { OnOk result (into.new.items
        ≡ into.old.items ++ pieces pool.now ((frames.form pool.now).spell (form_seen form.now))) }
{
    put_byte(tag(form), into)?;
    put_tail(form, pool, into)?;
    Ok(())
}
