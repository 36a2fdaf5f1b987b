//! Verified classes.

ghost use Rattle.class_linked.specs.Numbers.{first_file_class};
ghost use Rattle.class_verify.specs.Facts.{AreFine};
ghost use Rattle.class_verify.specs.Refusals.{Names, Refuses};
ghost use Rattle.class_verify_rules.specs.Bodies.{Body, body_at, instruction};
ghost use Rattle.class_verify_rules.specs.Frames.{before};
ghost use Rattle.class_verify_rules.specs.Turns.{IsTimed};
ghost use Rattle.class_verify_rules.specs.Typing.{IsThere, IsTyped};
ghost use Rattle.class_verify_rules.specs.Verified.{IsRejected, IsVerified};
ghost use Rattle.jvm_code_instructions.specs.declared.instr.Instr.{Instr};
ghost use Rattle.std.specs.Prelude.{◌≡◌, ◌≤◌, ℕ, IfErr, IfOk, Some};

use crate::classes::{Refusal, first_refusal};
use crate::errors::VerifyError;
use class_linked::{Linked, LinkedClass};
use class_verify_rules::laws::each_is_typed;
use sqlite_items::at;
use std::alloc::Global;
use std::marker::Model;

/// Classes that keep every rule of verification.
#[derive(Drop)]
pub struct Verified {
    linked: Linked,
}

impl Model for Verified {
    ghost use Rattle.class_linked.specs.declared.classes.Linked.{Linked};
    ghost use Rattle.class_verify_rules.specs.Verified.{IsVerified};

    ghost Value = { Linked };

    ghost view = { λ v. v.linked };

    ghost invariant = { λ v. IsVerified v.linked };
}

impl Verified {
    /// The classes, each mention a number.
    pub fn linked(&self) -> &Linked
        ensures same { result.now ≡ self.now }
        ensures verified { IsVerified self.now }
    {
        &self.linked
    }

    /// Each instruction of each method has a frame before it under which it is typed, and keeps the turn rule.
    pub fn has_frames(&self)
        ensures { (c k : ℕ) → first_file_class ≤ c → (b : Body) → body_at self.now c k ≡ Some b →
            (place : ℕ) (i : ℕ × Instr) → instruction b place ≡ Some i →
            IsThere (before b place) (IsTyped b place i.0 i.1) × IsTimed b place i.0 i.1 }
    {
        each_is_typed();
        let _linked = self.linked();
    }

    /// Each class of a class file stands as it may, and so does each method; each method with code begins with an
    /// instruction, its entries and frames keep their rules, and each instruction has a frame under which it is typed.
    pub fn keeps_rules(&self)
        ensures { AreFine self.now }
    {
        let _linked = self.linked();
    }
}

fn rejected_class(class: &LinkedClass, method: u32, offset: u32) -> VerifyError
    ensures { Names class.now method offset result }
{
    match class.name.clone() {
        Ok(name) => VerifyError::Rejected {
            class: name,
            method,
            offset,
        },
        Err(_) => VerifyError::NoMemory,
    }
}

/// The refusal with the name of the class. More than 2^32 methods count as want of memory.
fn rejected(linked: &Linked, refusal: Refusal) -> VerifyError
    requires { IsRejected linked.now refusal.class refusal.fault.method refusal.fault.offset }
    ensures { Refuses linked.now result }
{
    match at(linked.classes.as_slice(), refusal.class) {
        None => VerifyError::NoMemory,
        Some(class) => match u32::try_from(refusal.fault.method) {
            Ok(method) => rejected_class(class, method, refusal.fault.offset),
            Err(_) => VerifyError::NoMemory,
        },
    }
}

/// Verifies classes: they are as they were where every rule holds. Else they are refused at the first class, in it at
/// the first method, in it at the first offset at which a rule fails.
pub fn verify(alloc: Global, linked: Linked) -> Result<Verified, VerifyError>
    ensures same { IfOk result (λ verified. verified ≡ linked) }
    ensures verified { IfOk result (λ verified. IsVerified verified) }
    ensures refused { IfErr result (Refuses linked) }
{
    match first_refusal(alloc, &linked)? {
        None => Ok(Verified { linked }),
        Some(refusal) => Err(rejected(&linked, refusal)),
    }
}
