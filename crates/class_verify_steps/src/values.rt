//! Constants, local variables, arithmetic, moves, jumps and returns (JVMS SE 8 §4.10.1.9).

ghost use Rattle.class_verify_frames.specs.Views.{body, frame};
ghost use Rattle.class_verify_rules.specs.Acts.{Change, Go, Leave, Length, Load, Move, Operate, Push, PushLong, Store};
ghost use Rattle.class_verify_rules.specs.Acts.{Ints, Longs, References};
ghost use Rattle.class_verify_rules.specs.Bodies.{constant_at, list_of};
ghost use Rattle.class_verify_rules.specs.Frames.{constant_kind, loaded};
ghost use Rattle.class_verify_rules.specs.Kinds.{fits, is_reference, kind_of};
ghost use Rattle.class_verify_rules.specs.Typing.{IsLoadable, IsLong, IsOfSort, IsThere};
ghost use Rattle.class_verify_steps.specs.Sorts.{sort_of};
ghost use Rattle.class_verify_steps.specs.Stepping.{Steps};
ghost use Rattle.std.specs.Prelude.{◌≡◌, ◌↔◌, ◌⊎◌, ℕ, List, Bool, IfOk, IsTrue, MatchOption, None, Some, option_map};
ghost use Rattle.std.specs.Prelude.{slice_get, true};

use crate::moves::move_operands;
use crate::sorts::LocalSort;
use class_linked::{Constant, Kind};
use class_verify_frames::kinds::{
    OBJECT_CLASS, STRING_CLASS, is_array_kind, is_reference_kind, kind_fits, kind_of_value,
};
use class_verify_frames::locals::{store, store_long};
use class_verify_frames::operands::{take, take_all};
use class_verify_frames::{Body, Frame};
use jvm_code_opcodes::StackOp;
use kt_base::NoMemory;
use sqlite_items::at;

/// Takes operands, and leaves one in their place or none.
pub fn operate(
    method: &Body,
    held: &mut Frame,
    offset: u32,
    wanted: &[Kind],
    given: Option<Kind>,
) -> Result<bool, NoMemory>
    ensures { IfOk result (λ fine. Steps (body method.now) offset (Operate wanted.now (list_of given))
        (frame held.old) fine (frame held.new)) }
{
    if !take_all(method.program, &mut held.stack, wanted) {
        return Ok(false);
    }
    if let Some(kind) = given {
        held.stack.push(kind)?;
    }
    Ok(true)
}

/// Takes operands, and goes to other places.
pub fn go(method: &Body, held: &mut Frame, offset: u32, wanted: &[Kind]) -> bool
    ensures { (to : List ℕ) (on : Bool) → Steps (body method.now) offset (Go wanted.now to on)
        (frame held.old) result (frame held.new) }
{
    if take_all(method.program, &mut held.stack, wanted) {
        true
    } else {
        false
    }
}

fn constant_kind_of(method: &Body, index: u16) -> Option<Kind>
    ensures { MatchOption result (IsLoadable (constant_at (body method.now) index) →
        ⊥) (λ kind. IsLoadable (constant_at (body method.now) index)
        × (kind ≡ constant_kind (constant_at (body method.now) index))) }
{
    match at(method.constants, index as usize) {
        None => None,
        Some(constant) => match constant {
            Constant::Int(_) => Some(Kind::Int),
            Constant::Text(_) => Some(Kind::Object(STRING_CLASS)),
            Constant::Nothing
            | Constant::Long(_)
            | Constant::Class(_)
            | Constant::Field(_)
            | Constant::Method(_)
            | Constant::InterfaceMethod(_) => None,
        },
    }
}

/// Pushes an `int` or a text of the constant pool.
pub fn push_constant(
    method: &Body,
    held: &mut Frame,
    offset: u32,
    index: u16,
) -> Result<bool, NoMemory>
    ensures { IfOk result (λ fine. Steps (body method.now) offset (Push index) (frame held.old) fine (frame held.new)) }
{
    match constant_kind_of(method, index) {
        None => Ok(false),
        Some(kind) => {
            held.stack.push(kind)?;
            Ok(true)
        }
    }
}

fn is_long_constant(method: &Body, index: u16) -> bool
    ensures { IsTrue result ↔ IsLong (constant_at (body method.now) index) }
{
    match at(method.constants, index as usize) {
        None => false,
        Some(constant) => match constant {
            Constant::Long(_) => true,
            Constant::Nothing
            | Constant::Int(_)
            | Constant::Text(_)
            | Constant::Class(_)
            | Constant::Field(_)
            | Constant::Method(_)
            | Constant::InterfaceMethod(_) => false,
        },
    }
}

/// Pushes a `long` of the constant pool.
pub fn push_long(method: &Body, held: &mut Frame, offset: u32, index: u16) -> Result<bool, NoMemory>
    ensures { IfOk result (λ fine. Steps (body method.now) offset (PushLong index)
        (frame held.old) fine (frame held.new)) }
{
    if !is_long_constant(method, index) {
        return Ok(false);
    }
    held.stack.push(Kind::Long)?;
    Ok(true)
}

/// The kind that a load of a local variable pushes: `None` exactly where it isn't of that sort.
fn loaded_kind(locals: &[Kind], sort: LocalSort, local: usize) -> Option<Kind>
    ensures { MatchOption result (IsOfSort (sort_of sort) (slice_get locals.now local) →
        ⊥) (λ kind. IsOfSort (sort_of sort) (slice_get locals.now local)
        × (kind ≡ loaded (sort_of sort) locals.now local)) }
{
    match at(locals, local) {
        None => None,
        Some(kind) => match sort {
            LocalSort::Int => match *kind {
                Kind::Int => Some(*kind),
                _ => None,
            },
            LocalSort::Long => match *kind {
                Kind::Long => Some(*kind),
                _ => None,
            },
            LocalSort::Reference => {
                if is_reference_kind(*kind) {
                    Some(*kind)
                } else {
                    None
                }
            }
        },
    }
}

/// Pushes a local variable.
pub fn load(
    method: &Body,
    held: &mut Frame,
    offset: u32,
    sort: LocalSort,
    local: usize,
) -> Result<bool, NoMemory>
    ensures { IfOk result (λ fine. Steps (body method.now) offset (Load (sort_of sort) local)
        (frame held.old) fine (frame held.new)) }
{
    match loaded_kind(held.locals.as_slice(), sort, local) {
        None => Ok(false),
        Some(kind) => {
            held.stack.push(kind)?;
            Ok(true)
        }
    }
}

fn store_int(method: &Body, held: &mut Frame, offset: u32, local: usize) -> bool
    ensures { Steps (body method.now) offset (Store Ints local) (frame held.old) result (frame held.new) }
{
    if local >= held.locals.len() {
        return false;
    }
    if !take(method.program, &mut held.stack, Kind::Int) {
        return false;
    }
    store(&mut held.locals, local, Kind::Int);
    true
}

fn store_long_value(method: &Body, held: &mut Frame, offset: u32, local: usize) -> bool
    ensures { Steps (body method.now) offset (Store Longs local) (frame held.old) result (frame held.new) }
{
    let count = held.locals.len();
    if count == 0 || local >= count - 1 {
        return false;
    }
    if !take(method.program, &mut held.stack, Kind::Long) {
        return false;
    }
    store_long(&mut held.locals, local);
    true
}

fn store_reference(method: &Body, held: &mut Frame, offset: u32, local: usize) -> bool
    ensures { Steps (body method.now) offset (Store References local) (frame held.old) result (frame held.new) }
{
    if local >= held.locals.len() {
        return false;
    }
    match held.stack.pop() {
        None => false,
        Some(kind) => {
            if is_reference_kind(kind) {
                store(&mut held.locals, local, kind);
                true
            } else {
                false
            }
        }
    }
}

/// Pops into a local variable.
pub fn store_value(
    method: &Body,
    held: &mut Frame,
    offset: u32,
    sort: LocalSort,
    local: usize,
) -> bool
    ensures { Steps (body method.now) offset (Store (sort_of sort) local) (frame held.old) result (frame held.new) }
{
    match sort {
        LocalSort::Int => store_int(method, held, offset, local),
        LocalSort::Long => store_long_value(method, held, offset, local),
        LocalSort::Reference => store_reference(method, held, offset, local),
    }
}

/// Changes a local `int`.
pub fn change(method: &Body, held: &mut Frame, offset: u32, local: usize) -> bool
    ensures { Steps (body method.now) offset (Change local) (frame held.old) result (frame held.new) }
{
    match at(held.locals.as_slice(), local) {
        Some(Kind::Int) => true,
        _ => false,
    }
}

/// Drops, copies or swaps operands.
pub fn shuffle(method: &Body, held: &mut Frame, offset: u32, op: StackOp) -> Result<bool, NoMemory>
    ensures { IfOk result (λ fine. Steps (body method.now) offset (Move op) (frame held.old) fine (frame held.new)) }
{
    if !move_operands(op, &mut held.stack)? {
        return Ok(false);
    }
    Ok(true)
}

/// Takes an array, and leaves its length.
pub fn array_length(method: &Body, held: &mut Frame, offset: u32) -> Result<bool, NoMemory>
    ensures { IfOk result (λ fine. Steps (body method.now) offset Length (frame held.old) fine (frame held.new)) }
{
    match held.stack.pop() {
        None => Ok(false),
        Some(kind) => {
            if !is_array_kind(kind) {
                return Ok(false);
            }
            held.stack.push(Kind::Int)?;
            Ok(true)
        }
    }
}

fn leave_nothing(method: &Body, held: &mut Frame, offset: u32) -> bool
    ensures { Steps (body method.now) offset (Leave None) (frame held.old) result (frame held.new) }
{
    match method.method.result {
        None => { if held.raw { false } else { true } }
        Some(_) => false,
    }
}

/// Whether a method gives a value of a kind, in one unit or two.
fn gives_kind(method: &Body, kind: Kind) -> bool
    requires { (kind ≡ Kind.Int) ⊎ (kind ≡ Kind.Long) }
    ensures { IsTrue result ↔ IsThere method.now.method.now.result (λ r. kind_of r ≡ kind) }
{
    match method.method.result {
        None => false,
        Some(given) => match kind_of_value(given) {
            Kind::Int => match kind {
                Kind::Int => true,
                _ => false,
            },
            Kind::Long => match kind {
                Kind::Long => true,
                _ => false,
            },
            _ => false,
        },
    }
}

fn leave_int(method: &Body, held: &mut Frame, offset: u32) -> bool
    ensures { Steps (body method.now) offset (Leave (Some Ints)) (frame held.old) result (frame held.new) }
{
    if !gives_kind(method, Kind::Int) {
        return false;
    }
    if take(method.program, &mut held.stack, Kind::Int) {
        true
    } else {
        false
    }
}

fn leave_long(method: &Body, held: &mut Frame, offset: u32) -> bool
    ensures { Steps (body method.now) offset (Leave (Some Longs)) (frame held.old) result (frame held.new) }
{
    if !gives_kind(method, Kind::Long) {
        return false;
    }
    if take(method.program, &mut held.stack, Kind::Long) {
        true
    } else {
        false
    }
}

fn gives_reference(method: &Body, kind: Kind) -> bool
    ensures { IsTrue result ↔ IsThere method.now.method.now.result (λ r. (is_reference (kind_of r) ≡ true)
        × (fits method.now.program.now kind (kind_of r) ≡ true)) }
{
    match method.method.result {
        None => false,
        Some(given) => {
            let wanted = kind_of_value(given);
            is_reference_kind(wanted) && kind_fits(method.program, kind, wanted)
        }
    }
}

fn leave_reference(method: &Body, held: &mut Frame, offset: u32) -> bool
    ensures { Steps (body method.now) offset (Leave (Some References)) (frame held.old) result (frame held.new) }
{
    match held.stack.pop() {
        None => false,
        Some(kind) => {
            if !kind_fits(method.program, kind, Kind::Object(OBJECT_CLASS)) {
                return false;
            }
            if gives_reference(method, kind) {
                true
            } else {
                false
            }
        }
    }
}

/// Leaves the method.
pub fn leave(method: &Body, held: &mut Frame, offset: u32, sort: Option<LocalSort>) -> bool
    ensures { Steps (body method.now) offset (Leave (option_map sort_of sort))
        (frame held.old) result (frame held.new) }
{
    match sort {
        None => leave_nothing(method, held, offset),
        Some(LocalSort::Int) => leave_int(method, held, offset),
        Some(LocalSort::Long) => leave_long(method, held, offset),
        Some(LocalSort::Reference) => leave_reference(method, held, offset),
    }
}
