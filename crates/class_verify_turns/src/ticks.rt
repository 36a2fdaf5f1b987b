//! What an instruction is for the turn rule.

ghost use Rattle.class_verify_frames.specs.Views.{IsIndexed, body};
ghost use Rattle.class_verify_rules.specs.Bodies.{meant, starting_at, then_get};
ghost use Rattle.class_verify_rules.specs.Turns.{IsFixed, is_at, is_continuation, is_fixed_at, is_late};
ghost use Rattle.class_verify_rules.specs.Turns.{is_resumption, is_resuming};
ghost use Rattle.class_verify_rules.specs.Turns.{is_tick, is_tick_at, makes, resumes};
ghost use Rattle.std.specs.Prelude.{◌≡◌, ◌↔◌, IsTrue, Some};

use class_linked::{MethodMention, Role};
use class_verify_frames::Body;
use class_verify_frames::bodies::instruction_at;
use class_verify_frames::kinds::is_class_below;
use class_verify_steps::calls::made_by_instruction;
use class_verify_steps::mentions::{interface_mention, meant_method, method_mention};
use jvm_code::Instr;
use jvm_code_opcodes::{FixedLoad, InvokeOp, ReturnOp};

/// `kt/rt/Turn`.
const TURN_CLASS: usize = 22;

/// `kt/rt/ContinuationImpl`.
const CONTINUATION_CLASS: usize = 25;

fn is_first_of(class: usize, mention: Option<MethodMention>) -> bool
    ensures { result ≡ is_at class 0 mention }
{
    match mention {
        None => false,
        Some(mention) => mention.owner == class && mention.place == 0,
    }
}

/// Whether an instruction charges a turn: `invokestatic kt/rt/Turn.tick()V`.
pub fn ticks(method: &Body, instr: &Instr) -> bool
    ensures { result ≡ is_tick (body method.now) instr.now }
{
    match instr {
        Instr::Invoke { op, index } => match op {
            InvokeOp::Invokestatic => is_first_of(TURN_CLASS, method_mention(method, *index)),
            InvokeOp::Invokevirtual | InvokeOp::Invokespecial => false,
        },
        _ => false,
    }
}

/// Whether the instruction that starts at an offset charges a turn.
pub fn ticks_at(method: &Body, offset: u32) -> bool
    requires { IsIndexed method.now }
    ensures { result ≡ is_tick_at (body method.now) (starting_at (body method.now) offset) }
{
    match instruction_at(method, offset) {
        None => false,
        Some(instruction) => ticks(method, &instruction.1),
    }
}

/// Whether a tick is due before an instruction.
pub fn is_due_before(method: &Body, instr: &Instr) -> bool
    ensures { result ≡ is_late (body method.now) instr.now }
{
    match instr {
        Instr::Invoke { .. } => !ticks(method, instr),
        Instr::InvokeInterface { .. } | Instr::Return(_) => true,
        _ => false,
    }
}

fn is_class_of_continuations(method: &Body, class: Option<usize>) -> bool
    ensures { result ≡ is_continuation (body method.now) class }
{
    match class {
        None => false,
        Some(class) => is_class_below(method.program, class, CONTINUATION_CLASS),
    }
}

/// Whether an instruction makes a continuation.
pub fn makes_continuation(method: &Body, instruction: &(u32, Instr)) -> bool
    ensures { result ≡ makes (body method.now) instruction.now }
{
    is_class_of_continuations(method, made_by_instruction(method, instruction))
}

/// Whether a method is `invokeSuspend`.
pub fn is_resumed(role: Role) -> bool
    ensures { result ≡ is_resuming role }
{
    match role {
        Role::Resumption => true,
        Role::Constructor | Role::Ordinary => false,
    }
}

fn is_mention_resumed(method: &Body, mention: Option<MethodMention>) -> bool
    ensures { result ≡ is_resumption (then_get mention (meant method.now.program.now)) }
{
    match mention {
        None => false,
        Some(mention) => match meant_method(method.program, mention) {
            None => false,
            Some(callee) => is_resumed(callee.role),
        },
    }
}

/// Whether an instruction calls `invokeSuspend`.
pub fn resumes_body(method: &Body, instruction: &(u32, Instr)) -> bool
    ensures { result ≡ resumes (body method.now) instruction.now }
{
    match &instruction.1 {
        Instr::Invoke { op, index } => is_mention_resumed(method, method_mention(method, *index)),
        Instr::InvokeInterface { index, count } => {
            is_mention_resumed(method, interface_mention(method, *index))
        }
        _ => false,
    }
}

/// Whether a method is the constructor of a continuation, whose code is fixed.
pub fn is_fixed(method: &Body) -> bool
    ensures { IsTrue result ↔ IsFixed (body method.now) }
{
    match method.method.role {
        Role::Constructor => is_class_of_continuations(method, Some(method.class)),
        Role::Resumption | Role::Ordinary => false,
    }
}

/// Whether an instruction is the one that stands at a place of the constructor of a continuation.
pub fn is_fixed_instruction(method: &Body, place: usize, instr: &Instr) -> bool
    ensures { result ≡ is_fixed_at (body method.now) place instr.now }
{
    match place {
        0 => match instr {
            Instr::LoadFixed(FixedLoad::Aload0) => true,
            _ => false,
        },
        1 => match instr {
            Instr::LoadFixed(FixedLoad::Aload1) => true,
            _ => false,
        },
        2 => calls_above(method, instr),
        3 => match instr {
            Instr::Return(ReturnOp::Return) => true,
            _ => false,
        },
        _ => false,
    }
}

fn calls_above(method: &Body, instr: &Instr) -> bool
    ensures { result ≡ is_fixed_at (body method.now) 2 instr.now }
{
    match instr {
        Instr::Invoke { op, index } => match op {
            InvokeOp::Invokespecial => {
                is_first_of(CONTINUATION_CLASS, method_mention(method, *index))
            }
            InvokeOp::Invokevirtual | InvokeOp::Invokestatic => false,
        },
        _ => false,
    }
}
