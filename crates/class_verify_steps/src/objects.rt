//! Objects, fields, arrays and casts (JVMS SE 8 §4.10.1.9).

ghost use Rattle.class_verify_frames.specs.Views.{body, frame};
ghost use Rattle.class_verify_rules.specs.Acts.{Cast, GetField, Make, MakeObjects, PutField, Test};
ghost use Rattle.class_verify_rules.specs.Kinds.{class_at};
ghost use Rattle.class_verify_rules.specs.Typing.{IsConcrete, MayBeMade, MayStore};
ghost use Rattle.class_verify_steps.specs.Stepping.{Steps};
ghost use Rattle.std.specs.Prelude.{◌≡◌, ◌↔◌, IfOk, IsTrue};

use crate::mentions::{class_mention, field_mention};
use class_linked::{FieldMention, Kind, Linked};
use class_verify_frames::frames::is_constructing;
use class_verify_frames::kinds::{
    OBJECT_ARRAY_CLASS, OBJECT_CLASS, is_class_of_arrays, kind_of_value,
};
use class_verify_frames::operands::{has_fresh, replace, take};
use class_verify_frames::{Body, Frame};
use jvm_class_types::ClassFlags;
use kt_base::NoMemory;
use sqlite_items::at;

/// Takes an object, and leaves a field of it.
pub fn get_field(method: &Body, held: &mut Frame, offset: u32, index: u16) -> Result<bool, NoMemory>
    ensures { IfOk result (λ fine. Steps (body method.now) offset (GetField index)
        (frame held.old) fine (frame held.new)) }
{
    match field_mention(method, index) {
        None => Ok(false),
        Some(field) => {
            if !take(method.program, &mut held.stack, Kind::Object(field.named)) {
                return Ok(false);
            }
            held.stack.push(kind_of_value(field.kind))?;
            Ok(true)
        }
    }
}

/// A final field is stored in a constructor of the class that declares it, and nowhere else.
fn may_store(method: &Body, field: FieldMention) -> bool
    ensures { IsTrue result ↔ MayStore (body method.now) field }
{
    if !field.is_final {
        return true;
    }
    if !is_constructing(method.method.role) {
        return false;
    }
    method.class == field.owner
}

/// Takes an object and a value, and stores the value in a field.
pub fn put_field(method: &Body, held: &mut Frame, offset: u32, index: u16) -> bool
    ensures { Steps (body method.now) offset (PutField index) (frame held.old) result (frame held.new) }
{
    match field_mention(method, index) {
        None => false,
        Some(field) => {
            if !may_store(method, field) {
                return false;
            }
            if !take(method.program, &mut held.stack, kind_of_value(field.kind)) {
                return false;
            }
            if take(method.program, &mut held.stack, Kind::Object(field.named)) {
                true
            } else {
                false
            }
        }
    }
}

fn is_concrete(flags: ClassFlags) -> bool
    ensures { IsTrue result ↔ IsConcrete flags }
{
    match flags {
        ClassFlags::Open | ClassFlags::Final => true,
        ClassFlags::Abstract | ClassFlags::Interface => false,
    }
}

fn may_be_made(program: &Linked, class: usize) -> bool
    ensures { IsTrue result ↔ MayBeMade program.now class }
{
    if is_class_of_arrays(class) {
        return false;
    }
    match at(program.classes.as_slice(), class) {
        None => false,
        Some(linked) => is_concrete(linked.flags),
    }
}

/// Makes an object that isn't initialized: older ones of the same instruction are used no more.
pub fn make(method: &Body, held: &mut Frame, offset: u32, index: u16) -> Result<bool, NoMemory>
    ensures { IfOk result (λ fine. Steps (body method.now) offset (Make index) (frame held.old) fine (frame held.new)) }
{
    match class_mention(method, index) {
        None => Ok(false),
        Some(class) => {
            if !may_be_made(method.program, class) {
                return Ok(false);
            }
            if has_fresh(&held.stack, offset) {
                return Ok(false);
            }
            replace(&mut held.locals, Kind::Fresh(offset), Kind::Top);
            held.stack.push(Kind::Fresh(offset))?;
            Ok(true)
        }
    }
}

/// Takes a size, and leaves an array of references.
pub fn make_objects(
    method: &Body,
    held: &mut Frame,
    offset: u32,
    index: u16,
) -> Result<bool, NoMemory>
    ensures { IfOk result (λ fine. Steps (body method.now) offset (MakeObjects index)
        (frame held.old) fine (frame held.new)) }
{
    match class_mention(method, index) {
        None => Ok(false),
        Some(class) => {
            if class != OBJECT_CLASS {
                return Ok(false);
            }
            if !take(method.program, &mut held.stack, Kind::Int) {
                return Ok(false);
            }
            held.stack.push(Kind::Object(OBJECT_ARRAY_CLASS))?;
            Ok(true)
        }
    }
}

/// Throws where an object is not of a class.
pub fn cast(method: &Body, held: &mut Frame, offset: u32, index: u16) -> Result<bool, NoMemory>
    ensures { IfOk result (λ fine. Steps (body method.now) offset (Cast index) (frame held.old) fine (frame held.new)) }
{
    match class_mention(method, index) {
        None => Ok(false),
        Some(class) => {
            if !take(method.program, &mut held.stack, Kind::Object(OBJECT_CLASS)) {
                return Ok(false);
            }
            held.stack.push(Kind::Object(class))?;
            Ok(true)
        }
    }
}

/// Tells if an object is of a class.
pub fn test(method: &Body, held: &mut Frame, offset: u32, index: u16) -> Result<bool, NoMemory>
    ensures { IfOk result (λ fine. Steps (body method.now) offset (Test index) (frame held.old) fine (frame held.new)) }
{
    match class_mention(method, index) {
        None => Ok(false),
        Some(_) => {
            if !take(method.program, &mut held.stack, Kind::Object(OBJECT_CLASS)) {
                return Ok(false);
            }
            held.stack.push(Kind::Int)?;
            Ok(true)
        }
    }
}
