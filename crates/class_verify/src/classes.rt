//! The first rule that fails in a class, and in all.

ghost use Rattle.class_linked.specs.Numbers.{first_file_class};
ghost use Rattle.class_verify.specs.Refusals.{FailsFirst, OneKeeps};
ghost use Rattle.class_verify_methods.specs.Faults.{Least};
ghost use Rattle.class_verify_rules.specs.Kinds.{class_at};
ghost use Rattle.class_verify_rules.specs.Typing.{Each, IsThere};
ghost use Rattle.class_verify_rules.specs.Verified.{ClassStands, ConstructorStands, IsRejected, IsVerified, Keeps};
ghost use Rattle.class_verify_rules.specs.Verified.{MayExtend, MethodStands};
ghost use Rattle.std.specs.Prelude.{◌≡◌, ◌≢◌, ◌↔◌, ◌≤◌, [], ℕ, IfOk, IsTrue, MatchOption, None, Some};

use class_linked::{Linked, LinkedClass, LinkedMethod, Role};
use class_verify_frames::kinds::OBJECT_CLASS;
use class_verify_methods::first_fault;
use jvm_class_types::{ClassFlags, MethodFlags};
use kt_base::NoMemory;
use sqlite_items::at;
use std::alloc::Global;

/// The number of the first class of a class file.
pub const FIRST_FILE_CLASS: usize = 36;

fn is_interface(flags: ClassFlags) -> bool
    ensures { IsTrue result ↔ (flags ≡ ClassFlags.Interface) }
{
    match flags {
        ClassFlags::Interface => true,
        ClassFlags::Open | ClassFlags::Final | ClassFlags::Abstract => false,
    }
}

fn is_abstract(method: &LinkedMethod) -> bool
    ensures { IsTrue result ↔ (method.now.flags ≡ MethodFlags.Abstract) }
{
    match method.flags {
        MethodFlags::Abstract => true,
        MethodFlags::Instance | MethodFlags::Static => false,
    }
}

fn constructor_stands(linked: &LinkedClass, method: &LinkedMethod) -> bool
    ensures { IsTrue result ↔ ConstructorStands linked.now method.now }
{
    match method.flags {
        MethodFlags::Instance => match method.result {
            None => {
                if is_interface(linked.flags) {
                    false
                } else {
                    true
                }
            }
            Some(_) => false,
        },
        MethodFlags::Static | MethodFlags::Abstract => false,
    }
}

fn constructor_holds(linked: &LinkedClass, method: &LinkedMethod) -> bool
    ensures { IsTrue result ↔ (method.now.role ≡ Role.Constructor → ConstructorStands linked.now method.now) }
{
    match method.role {
        Role::Constructor => constructor_stands(linked, method),
        Role::Resumption | Role::Ordinary => true,
    }
}

fn interface_holds(linked: &LinkedClass, method: &LinkedMethod) -> bool
    ensures { IsTrue result ↔
        (linked.now.flags ≡ ClassFlags.Interface → method.now.flags ≡ MethodFlags.Abstract) }
{
    if is_interface(linked.flags) {
        is_abstract(method)
    } else {
        true
    }
}

/// A method has code exactly where it isn't abstract.
fn code_holds(method: &LinkedMethod) -> bool
    ensures { IsTrue result ↔
        ((method.now.code ≡ None → method.now.flags ≡ MethodFlags.Abstract)
        × (method.now.flags ≡ MethodFlags.Abstract → method.now.code ≡ None)) }
{
    match &method.code {
        None => is_abstract(method),
        Some(_) => { if is_abstract(method) { false } else { true } }
    }
}

/// Whether a method keeps the rules on methods of its class.
fn method_stands(program: &Linked, linked: &LinkedClass, method: &LinkedMethod) -> bool
    ensures { IsTrue result ↔ MethodStands program.now linked.now method.now }
{
    if !constructor_holds(linked, method) {
        return false;
    }
    if !interface_holds(linked, method) {
        return false;
    }
    code_holds(method)
}

fn may_extend(flags: ClassFlags, number: usize, above: &LinkedClass) -> bool
    ensures { IsTrue result ↔ MayExtend flags number above.now }
{
    match flags {
        ClassFlags::Interface => { if number == OBJECT_CLASS { true } else { false } }
        ClassFlags::Open | ClassFlags::Final | ClassFlags::Abstract => match above.flags {
            ClassFlags::Open | ClassFlags::Abstract => true,
            ClassFlags::Final | ClassFlags::Interface => false,
        },
    }
}

fn above_holds(program: &Linked, linked: &LinkedClass) -> bool
    ensures { IsTrue result ↔
        IsThere linked.now.above (λ s. IsThere (class_at program.now s) (MayExtend linked.now.flags s)) }
{
    match linked.above {
        None => false,
        Some(number) => match at(program.classes.as_slice(), number) {
            None => false,
            Some(above) => may_extend(linked.flags, number, above),
        },
    }
}

fn is_interface_class(program: &Linked, number: usize) -> bool
    ensures { IsTrue result ↔ IsThere (class_at program.now number) (λ i. i.flags ≡ ClassFlags.Interface) }
{
    match at(program.classes.as_slice(), number) {
        None => false,
        Some(linked) => is_interface(linked.flags),
    }
}

fn interfaces_hold(program: &Linked, interfaces: &[usize]) -> bool
    ensures { IsTrue result ↔
        Each interfaces.now (λ s. IsThere (class_at program.now s) (λ i. i.flags ≡ ClassFlags.Interface)) }
{
    for number in interfaces {
        if !is_interface_class(program, *number) {
            return false;
        }
    }
    true
}

fn fields_hold(linked: &LinkedClass) -> bool
    ensures { IsTrue result ↔ (linked.now.flags ≡ ClassFlags.Interface → linked.now.fields ≡ []) }
{
    if is_interface(linked.flags) {
        linked.fields.is_empty()
    } else {
        true
    }
}

/// Whether a class keeps the rules on the class as a whole.
fn class_stands(program: &Linked, linked: &LinkedClass) -> bool
    ensures { IsTrue result ↔ ClassStands program.now linked.now }
{
    if !above_holds(program, linked) {
        return false;
    }
    if !interfaces_hold(program, linked.interfaces.as_slice()) {
        return false;
    }
    fields_hold(linked)
}

/// The first offset of a method at which a rule fails.
fn method_fault(
    alloc: Global,
    program: &Linked,
    class: usize,
    linked: &LinkedClass,
    method: &LinkedMethod,
) -> Result<Option<u32>, NoMemory>
    ensures { IfOk result (Least (OneKeeps program.now class linked.now method.now)) }
{
    if !method_stands(program, linked, method) {
        return Ok(Some(0));
    }
    match &method.code {
        None => Ok(None),
        Some(code) => {
            first_fault(
                alloc,
                program,
                class,
                linked.constants.as_slice(),
                method,
                code,
            )
        }
    }
}

/// A method of a class, counted from 1, or the class itself, and an offset in its code.
#[derive(Clone, Copy)]
pub struct Fault {
    pub method: usize,
    pub offset: u32,
}

/// The first method of a class at which a rule fails, and the first offset in it.
fn class_fault(
    alloc: Global,
    program: &Linked,
    class: usize,
    linked: &LinkedClass,
) -> Result<Option<Fault>, NoMemory>
    requires { class_at program.now class ≡ Some linked.now }
    ensures { IfOk result (λ found. MatchOption found
        ((n at : ℕ) → Keeps program.now class n at)
        (λ fault. FailsFirst program.now class fault.method fault.offset)) }
{
    if !class_stands(program, linked) {
        return Ok(Some(Fault {
            method: 0,
            offset: 0,
        }));
    }
    for place in 0..linked.methods.len() {
        match at(linked.methods.as_slice(), place) {
            None => unreachable!(),
            Some(method) => match method_fault(alloc, program, class, linked, method)? {
                None => {}
                Some(offset) => {
                    return Ok(Some(Fault {
                        method: place + 1,
                        offset,
                    }));
                }
            },
        }
    }
    Ok(None)
}

/// A class, and where it is refused.
#[derive(Clone, Copy)]
pub struct Refusal {
    pub class: usize,
    pub fault: Fault,
}

/// The first class of a class file in which a rule fails, and where.
pub fn first_refusal(alloc: Global, program: &Linked) -> Result<Option<Refusal>, NoMemory>
    ensures { IfOk result (λ found. MatchOption found (IsVerified program.now)
        (λ refusal. IsRejected program.now refusal.class refusal.fault.method refusal.fault.offset)) }
{
    for class in FIRST_FILE_CLASS..program.classes.len() {
        match at(program.classes.as_slice(), class) {
            None => unreachable!(),
            Some(linked) => match class_fault(alloc, program, class, linked)? {
                None => {}
                Some(fault) => return Ok(Some(Refusal { class, fault })),
            },
        }
    }
    Ok(None)
}
