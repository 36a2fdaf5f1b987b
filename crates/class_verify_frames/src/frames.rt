//! What is known where an instruction begins (JVMS SE 8 §4.10.1.4).

ghost use Rattle.class_verify_frames.specs.Views.{body, frame};
ghost use Rattle.class_verify_rules.specs.Bodies.{arguments, is_constructor, receiver, receiver_kind};
ghost use Rattle.class_verify_rules.specs.Frames.{FrameFits, entry, padded, shown};
ghost use Rattle.class_verify_rules.specs.Kinds.{AllFit, is_fresh_this, kind_of, operand_fits, spread};
ghost use Rattle.std.specs.List.{list_any};
ghost use Rattle.class_verify_rules.specs.Typing.{caught};
ghost use Rattle.std.specs.Prelude.{◌≡◌, ◌↔◌, ◌∷◌, ◌++◌, [], IfOk, IsTrue, OnOk, map, replicate, true};

use crate::bodies::Body;
use crate::kinds::{has_fresh_this, is_operand_for, kind_of_value, locals_fit};
use crate::operands::{Operands, operands_fit};
use class_linked::{Kind, Linked, LinkedFrame, LinkedHandler, LinkedMethod, Role, ValueKind};
use jvm_class_types::MethodFlags;
use kt_base::NoMemory;
use std::alloc::Global;

/// What is known where an instruction begins.
#[derive(Drop)]
pub struct Frame {
    /// A kind for each unit of the local variables.
    pub locals: Vec<Kind>,
    pub stack: Operands,
    /// Whether the code is in a constructor, and the constructor above has not returned yet.
    pub raw: bool,
}

fn push_tops(locals: &mut Vec<Kind>, count: usize) -> Result<(), NoMemory>
    ensures { OnOk result (locals.new.items ≡ locals.old.items ++ replicate count Kind.Top) }
{
    for _ in 0..count {
        locals.push(Kind::Top)?;
    }
    Ok(())
}

fn pad(locals: &mut Vec<Kind>, most: usize) -> Result<(), NoMemory>
    ensures { OnOk result (locals.new.items ≡ padded most locals.old.items) }
{
    let count = most.saturating_sub(locals.len());
    push_tops(locals, count)
}

/// A frame of a class file, with a kind for each unit of the local variables.
pub fn shown_frame(alloc: Global, given: &LinkedFrame, most: usize) -> Result<Frame, NoMemory>
    ensures { IfOk result (λ f. frame f ≡ shown most given.now) }
{
    let mut locals = Vec::from_slice(alloc, given.locals.as_slice())?;
    pad(&mut locals, most)?;
    let mut stack = Operands::new(alloc);
    stack.push_all(given.stack.as_slice())?;
    let raw = has_fresh_this(given.locals.as_slice());
    Ok(Frame { locals, stack, raw })
}

fn push_spread(locals: &mut Vec<Kind>, kind: Kind) -> Result<(), NoMemory>
    ensures { OnOk result (locals.new.items ≡ locals.old.items ++ spread (kind ∷ [])) }
{
    locals.push(kind)?;
    if let Kind::Long = kind {
        locals.push(Kind::Top)?;
    }
    Ok(())
}

fn push_parameters(locals: &mut Vec<Kind>, parameters: &[ValueKind]) -> Result<(), NoMemory>
    ensures { OnOk result (locals.new.items ≡ locals.old.items ++ spread (map kind_of parameters.now)) }
{
    for parameter in parameters {
        push_spread(locals, kind_of_value(*parameter))?;
    }
    Ok(())
}

fn receiver_of(class: usize, role: Role) -> Kind
    ensures { result ≡ receiver_kind class role }
{
    match role {
        Role::Constructor => Kind::FreshThis,
        Role::Resumption | Role::Ordinary => Kind::Object(class),
    }
}

fn push_receiver(
    locals: &mut Vec<Kind>,
    class: usize,
    method: &LinkedMethod,
) -> Result<(), NoMemory>
    ensures { OnOk result (locals.new.items
        ≡ locals.old.items ++ spread (receiver class method.now.flags method.now.role)) }
{
    match method.flags {
        MethodFlags::Static => {}
        MethodFlags::Instance | MethodFlags::Abstract => {
            push_spread(locals, receiver_of(class, method.role))?
        }
    }
    Ok(())
}

/// What a method takes, the receiver first, a kind for each unit.
pub fn arguments_of(
    alloc: Global,
    class: usize,
    method: &LinkedMethod,
) -> Result<Vec<Kind>, NoMemory>
    ensures { IfOk result (λ kinds. kinds.items ≡ spread (arguments class method.now)) }
{
    let mut locals = Vec::new(alloc);
    push_receiver(&mut locals, class, method)?;
    push_parameters(&mut locals, method.parameters.as_slice())?;
    Ok(locals)
}

/// Whether a method is a constructor.
pub fn is_constructing(role: Role) -> bool
    ensures { result ≡ is_constructor role }
{
    match role {
        Role::Constructor => true,
        Role::Resumption | Role::Ordinary => false,
    }
}

/// The frame at the start of a method.
pub fn entry_frame(alloc: Global, method: &Body) -> Result<Frame, NoMemory>
    ensures { IfOk result (λ f. frame f ≡ entry (body method.now)) }
{
    let mut locals = arguments_of(alloc, method.class, method.method)?;
    pad(&mut locals, method.code.max_locals as usize)?;
    Ok(Frame {
        locals,
        stack: Operands::new(alloc),
        raw: is_constructing(method.method.role),
    })
}

fn raw_fits(raw: bool, given: &[Kind]) -> bool
    ensures { IsTrue result ↔ (raw ≡ true → list_any is_fresh_this given.now ≡ true) }
{
    if raw { has_fresh_this(given) } else { true }
}

/// Whether a frame fits into one that a class file has.
pub fn frame_fits(program: &Linked, held: &Frame, given: &LinkedFrame, most: usize) -> bool
    ensures { IsTrue result ↔ FrameFits program.now (frame held.now) (shown most given.now) }
{
    if !raw_fits(held.raw, given.locals.as_slice()) {
        return false;
    }
    if !operands_fit(program, &held.stack, given.stack.as_slice()) {
        return false;
    }
    locals_fit(
        program,
        held.locals.as_slice(),
        given.locals.as_slice(),
        most,
    )
}

fn is_alone(program: &Linked, kind: Kind, given: &[Kind]) -> bool
    ensures { IsTrue result ↔ AllFit (operand_fits program.now) (kind ∷ []) given.now }
{
    match given {
        [only] => is_operand_for(program, kind, *only),
        _ => false,
    }
}

/// Whether a frame, with the throwable that a handler catches in place of its operands, fits into one that a class
/// file has.
pub fn caught_fits(
    program: &Linked,
    held: &Frame,
    handler: &LinkedHandler,
    given: &LinkedFrame,
    most: usize,
) -> bool
    ensures { IsTrue result ↔ FrameFits program.now (caught (frame held.now) handler.now) (shown most given.now) }
{
    if !raw_fits(held.raw, given.locals.as_slice()) {
        return false;
    }
    if !is_alone(program, Kind::Object(handler.catch), given.stack.as_slice()) {
        return false;
    }
    locals_fit(
        program,
        held.locals.as_slice(),
        given.locals.as_slice(),
        most,
    )
}
