//! Calls of methods (JVMS SE 8 §4.10.1.9).

ghost use Rattle.class_verify_frames.specs.Views.{IsIndexed, Took, body, frame};
ghost use Rattle.class_verify_rules.specs.Acts.{Call, CallInterface};
ghost use Rattle.class_verify_rules.specs.Bodies.{list_of, made_at, made_by};
ghost use Rattle.class_verify_rules.specs.Frames.{becomes, still_raw};
ghost use Rattle.class_verify_rules.specs.Kinds.{class_at, kind_of};
ghost use Rattle.class_verify_rules.specs.Typing.{Builds, IsThere, IsVirtual};
ghost use Rattle.class_verify_steps.specs.Stepping.{IsInitialized, IsStatic, Steps, made_kind};
ghost use Rattle.std.specs.Prelude.{◌≡◌, ◌↔◌, ◌∷◌, ◌++◌, [], IfOk, IsTrue, MatchOption, OnOk, Some, map, option_map};
ghost use Rattle.std.specs.Prelude.{reverse, slice_get};

use crate::mentions::{class_mention, interface_mention, meant_method, method_mention};
use class_linked::{Kind, Linked, LinkedMethod, MethodMention, Role, ValueKind};
use class_verify_frames::bodies::instruction_at;
use class_verify_frames::kinds::kind_of_value;
use class_verify_frames::operands::{replace, take};
use class_verify_frames::{Body, Frame, Operands};
use jvm_class_types::MethodFlags;
use jvm_code::Instr;
use jvm_code_opcodes::InvokeOp;
use kt_base::NoMemory;
use sqlite_items::at;

/// Takes the arguments of a call, the last of which is on top.
fn take_arguments(program: &Linked, stack: &mut Operands, parameters: &[ValueKind]) -> bool
    ensures { Took program.now (reverse (map kind_of parameters.now)) stack.old result stack.new }
{
    let mut left = parameters.len();
    while left > 0 {
        left -= 1;
        if !take(program, stack, kind_of_value(parameters[left])) {
            return false;
        }
    }
    true
}

fn push_result(stack: &mut Operands, result_kind: Option<ValueKind>) -> Result<(), NoMemory>
    ensures { OnOk result (stack.new ≡ list_of (option_map kind_of result_kind) ++ stack.old) }
{
    if let Some(kind) = result_kind {
        stack.push(kind_of_value(kind))?;
    }
    Ok(())
}

fn is_virtual(callee: &LinkedMethod) -> bool
    ensures { IsTrue result ↔ IsVirtual callee.now }
{
    match callee.flags {
        MethodFlags::Static => false,
        MethodFlags::Instance | MethodFlags::Abstract => match callee.role {
            Role::Constructor => false,
            Role::Resumption | Role::Ordinary => true,
        },
    }
}

fn is_static(callee: &LinkedMethod) -> bool
    ensures { IsTrue result ↔ IsStatic callee.now }
{
    match callee.flags {
        MethodFlags::Static => match callee.role {
            Role::Constructor => false,
            Role::Resumption | Role::Ordinary => true,
        },
        MethodFlags::Instance | MethodFlags::Abstract => false,
    }
}

/// Whether a method initializes the object that it is called on.
fn is_initializer(callee: &LinkedMethod, mention: MethodMention) -> bool
    ensures { IsTrue result ↔ IsInitialized callee.now mention }
{
    match callee.flags {
        MethodFlags::Instance => match callee.role {
            Role::Constructor => {
                if mention.named == mention.owner {
                    true
                } else {
                    false
                }
            }
            Role::Resumption | Role::Ordinary => false,
        },
        MethodFlags::Static | MethodFlags::Abstract => false,
    }
}

/// Calls a static method.
fn call_static(method: &Body, held: &mut Frame, offset: u32, index: u16) -> Result<bool, NoMemory>
    ensures { IfOk result (λ fine. Steps (body method.now) offset (Call InvokeOp.Invokestatic index)
        (frame held.old) fine (frame held.new)) }
{
    match method_mention(method, index) {
        None => Ok(false),
        Some(mention) => match meant_method(method.program, mention) {
            None => Ok(false),
            Some(callee) => {
                if !is_static(callee) {
                    return Ok(false);
                }
                if !take_arguments(
                    method.program,
                    &mut held.stack,
                    callee.parameters.as_slice(),
                ) {
                    return Ok(false);
                }
                push_result(&mut held.stack, callee.result)?;
                Ok(true)
            }
        },
    }
}

/// Takes the arguments of a call, and the object that it is made on.
fn take_with_receiver(
    program: &Linked,
    stack: &mut Operands,
    parameters: &[ValueKind],
    receiver: Kind,
) -> bool
    ensures { Took program.now (reverse (map kind_of parameters.now) ++ receiver ∷ []) stack.old result stack.new }
{
    if !take_arguments(program, stack, parameters) {
        return false;
    }
    if take(program, stack, receiver) {
        true
    } else {
        false
    }
}

/// Calls a method of an object.
fn call_virtual(method: &Body, held: &mut Frame, offset: u32, index: u16) -> Result<bool, NoMemory>
    ensures { IfOk result (λ fine. Steps (body method.now) offset (Call InvokeOp.Invokevirtual index)
        (frame held.old) fine (frame held.new)) }
{
    match method_mention(method, index) {
        None => Ok(false),
        Some(mention) => match meant_method(method.program, mention) {
            None => Ok(false),
            Some(callee) => {
                if !is_virtual(callee) {
                    return Ok(false);
                }
                if !take_with_receiver(
                    method.program,
                    &mut held.stack,
                    callee.parameters.as_slice(),
                    Kind::Object(mention.named),
                ) {
                    return Ok(false);
                }
                push_result(&mut held.stack, callee.result)?;
                Ok(true)
            }
        },
    }
}

/// Calls a method of an interface.
pub fn call_interface(
    method: &Body,
    held: &mut Frame,
    offset: u32,
    index: u16,
) -> Result<bool, NoMemory>
    ensures { IfOk result (λ fine. Steps (body method.now) offset (CallInterface index)
        (frame held.old) fine (frame held.new)) }
{
    match interface_mention(method, index) {
        None => Ok(false),
        Some(mention) => match meant_method(method.program, mention) {
            None => Ok(false),
            Some(callee) => {
                if !is_virtual(callee) {
                    return Ok(false);
                }
                if !take_with_receiver(
                    method.program,
                    &mut held.stack,
                    callee.parameters.as_slice(),
                    Kind::Object(mention.named),
                ) {
                    return Ok(false);
                }
                push_result(&mut held.stack, callee.result)?;
                Ok(true)
            }
        },
    }
}

/// The class of which the *new* at an offset makes an object.
pub fn made_class(method: &Body, offset: u32) -> Option<usize>
    requires { IsIndexed method.now }
    ensures { result ≡ made_at (body method.now) offset }
{
    match instruction_at(method, offset) {
        None => None,
        Some(instruction) => made_by_instruction(method, instruction),
    }
}

/// The class of which an instruction makes an object.
pub fn made_by_instruction(method: &Body, instruction: &(u32, Instr)) -> Option<usize>
    ensures { result ≡ made_by (body method.now) (Some instruction.now) }
{
    match &instruction.1 {
        Instr::New { index } => class_mention(method, *index),
        _ => None,
    }
}

/// Whether the class directly above this method's class is another.
fn is_above(method: &Body, class: usize) -> bool
    ensures { IsTrue result
        ↔ IsThere (class_at method.now.program.now method.now.class) (λ owner. owner.above ≡ Some class) }
{
    match at(method.program.classes.as_slice(), method.class) {
        None => false,
        Some(owner) => match owner.above {
            None => false,
            Some(above) => { if above == class { true } else { false } }
        },
    }
}

/// Whether the constructor of a class may be called on this kind.
fn may_build(method: &Body, kind: Kind, class: usize) -> bool
    requires { IsIndexed method.now }
    ensures { IsTrue result ↔ Builds (body method.now) kind class }
{
    match kind {
        Kind::Fresh(offset) => match made_class(method, offset) {
            None => false,
            Some(made) => { if made == class { true } else { false } }
        },
        Kind::FreshThis => {
            if method.class == class {
                true
            } else {
                is_above(method, class)
            }
        }
        Kind::Top | Kind::Int | Kind::Long | Kind::Null | Kind::Object(_) => false,
    }
}

/// What each copy of an object becomes once its constructor returned.
fn initialize(method: &Body, held: &mut Frame, kind: Kind, class: usize)
    requires { Builds (body method.now) kind class }
    ensures locals { held.new.locals.items ≡ map (becomes (body method.now) kind) held.old.locals.items }
    ensures stack { held.new.stack ≡ map (becomes (body method.now) kind) held.old.stack }
    ensures raw { held.new.raw ≡ still_raw (Some kind) held.old.raw }
{
    let made = initialized_kind(method, kind, class);
    replace(&mut held.locals, kind, made);
    held.stack.replace(kind, made);
    held.raw = raw_behind(kind, held.raw);
}

fn initialized_kind(method: &Body, kind: Kind, class: usize) -> Kind
    ensures { result ≡ made_kind (body method.now) kind class }
{
    match kind {
        Kind::FreshThis => Kind::Object(method.class),
        Kind::Top | Kind::Int | Kind::Long | Kind::Null | Kind::Object(_) | Kind::Fresh(_) =>
            Kind::Object(class),
    }
}

fn raw_behind(kind: Kind, raw: bool) -> bool
    ensures { result ≡ still_raw (Some kind) raw }
{
    match kind {
        Kind::FreshThis => false,
        Kind::Top | Kind::Int | Kind::Long | Kind::Null | Kind::Object(_) | Kind::Fresh(_) => raw,
    }
}

/// Takes the object that a constructor is called on, where it may be.
fn take_built(method: &Body, stack: &mut Operands, class: usize) -> Option<Kind>
    requires { IsIndexed method.now }
    ensures { MatchOption result (IsThere (slice_get stack.old 0) (λ k. Builds (body method.now) k class) →
        ⊥) (λ k. (stack.old ≡ k ∷ stack.new) × Builds (body method.now) k class) }
{
    match stack.pop() {
        None => None,
        Some(kind) => {
            if may_build(method, kind, class) {
                Some(kind)
            } else {
                None
            }
        }
    }
}

/// Calls a constructor.
fn call_special(method: &Body, held: &mut Frame, offset: u32, index: u16) -> Result<bool, NoMemory>
    requires { IsIndexed method.now }
    ensures { IfOk result (λ fine. Steps (body method.now) offset (Call InvokeOp.Invokespecial index)
        (frame held.old) fine (frame held.new)) }
{
    match method_mention(method, index) {
        None => Ok(false),
        Some(mention) => match meant_method(method.program, mention) {
            None => Ok(false),
            Some(callee) => {
                if !is_initializer(callee, mention) {
                    return Ok(false);
                }
                if !take_arguments(
                    method.program,
                    &mut held.stack,
                    callee.parameters.as_slice(),
                ) {
                    return Ok(false);
                }
                match take_built(method, &mut held.stack, mention.owner) {
                    None => Ok(false),
                    Some(kind) => {
                        initialize(method, held, kind, mention.owner);
                        push_result(&mut held.stack, callee.result)?;
                        Ok(true)
                    }
                }
            }
        },
    }
}

/// Calls a method of a class.
pub fn call(
    method: &Body,
    held: &mut Frame,
    offset: u32,
    op: InvokeOp,
    index: u16,
) -> Result<bool, NoMemory>
    requires { IsIndexed method.now }
    ensures { IfOk result (λ fine. Steps (body method.now) offset (Call op index)
        (frame held.old) fine (frame held.new)) }
{
    match op {
        InvokeOp::Invokevirtual => call_virtual(method, held, offset, index),
        InvokeOp::Invokespecial => call_special(method, held, offset, index),
        InvokeOp::Invokestatic => call_static(method, held, offset, index),
    }
}
