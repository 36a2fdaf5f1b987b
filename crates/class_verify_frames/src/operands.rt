//! The operand stack (JVMS SE 8 §2.6.2).

ghost use Rattle.class_verify_frames.specs.Pairs.{FitsAt, replaced};
ghost use Rattle.class_verify_frames.specs.Views.{Took};
ghost use Rattle.class_verify_rules.specs.Kinds.{AllFit, TopFits, is_fresh, operand_fits, units, width};
ghost use Rattle.std.specs.List.{list_any};
ghost use Rattle.std.specs.Prelude.{◌≡◌, ◌↔◌, ◌<◌, ◌≤◌, ◌∷◌, ◌++◌, [], IsTrue, IfOk, MatchOption, OnOk, drop, length};
ghost use Rattle.std.specs.Prelude.{map, reverse, slice_get};

use crate::kinds::{is_fresh_at, is_operand_for, kind_fits, width_of};
use class_linked::{Kind, Linked};
use kt_base::NoMemory;
use std::alloc::Global;
use std::marker::Model;

/// The kinds of the operands. Contracts see a list whose first is the top.
#[derive(Drop)]
pub struct Operands {
    kinds: Vec<Kind>,
}

impl Model for Operands {
    ghost use Rattle.std.specs.Prelude.{List, reverse};
    ghost use Rattle.class_linked.specs.declared.kinds.Kind.{Kind};

    ghost Value = { List Kind };

    ghost view = { λ o. reverse o.kinds.items };
}

/// Puts a kind in place of each that is one that isn't initialized.
pub fn replace(kinds: &mut Vec<Kind>, old: Kind, new: Kind)
    ensures { kinds.new.items ≡ map (replaced old new) kinds.old.items }
{
    for place in 0..kinds.len() {
        kinds[place] = replaced_kind(old, new, kinds[place]);
    }
}

fn replaced_kind(old: Kind, new: Kind, kind: Kind) -> Kind
    ensures { result ≡ replaced old new kind }
{
    match old {
        Kind::Fresh(made) => match kind {
            Kind::Fresh(other) => { if made == other { new } else { kind } }
            _ => kind,
        },
        Kind::FreshThis => match kind {
            Kind::FreshThis => new,
            _ => kind,
        },
        _ => kind,
    }
}

impl Operands {
    /// No operands.
    pub fn new(alloc: Global) -> Operands
        ensures { result ≡ [] }
    {
        Operands {
            kinds: Vec::new(alloc),
        }
    }

    pub fn push(&mut self, kind: Kind) -> Result<(), NoMemory>
        ensures { OnOk result (self.new ≡ kind ∷ self.old) }
    {
        self.kinds.push(kind)?;
        Ok(())
    }

    /// Takes the top.
    pub fn pop(&mut self) -> Option<Kind>
        ensures { MatchOption result ((self.old ≡ []) × (self.new ≡ [])) (λ kind. self.old ≡ kind ∷ self.new) }
    {
        self.kinds.pop()
    }

    pub fn len(&self) -> usize
        ensures { result ≡ length self.now }
    {
        self.kinds.len()
    }

    /// The kind at a depth, 0 for the top.
    pub fn at(&self, depth: usize) -> Option<Kind>
        ensures { result ≡ slice_get self.now depth }
    {
        let count = self.kinds.len();
        if depth < count {
            Some(self.kinds[count - 1 - depth])
        } else {
            None
        }
    }

    /// Puts a kind in place of each that is one that isn't initialized.
    pub fn replace(&mut self, old: Kind, new: Kind)
        ensures { self.new ≡ map (replaced old new) self.old }
    {
        replace(&mut self.kinds, old, new);
    }

    /// Puts kinds on top, the first of them last.
    pub fn push_all(&mut self, kinds: &[Kind]) -> Result<(), NoMemory>
        ensures { OnOk result (self.new ≡ kinds.now ++ self.old) }
    {
        let mut left = kinds.len();
        while left > 0 {
            left -= 1;
            self.push(kinds[left])?;
        }
        Ok(())
    }
}

/// Takes the top, and tells whether it may stand for what is wanted.
pub fn take(program: &Linked, stack: &mut Operands, wanted: Kind) -> bool
    ensures { Took program.now (wanted ∷ []) stack.old result stack.new }
{
    match stack.pop() {
        None => false,
        Some(kind) => {
            if kind_fits(program, kind, wanted) {
                true
            } else {
                false
            }
        }
    }
}

/// Takes the topmost operands, and tells whether they may stand for those that are wanted, the top first.
pub fn take_all(program: &Linked, stack: &mut Operands, wanted: &[Kind]) -> bool
    ensures { Took program.now wanted.now stack.old result stack.new }
{
    for kind in wanted {
        if !take(program, stack, *kind) {
            return false;
        }
    }
    true
}

fn kind_at(stack: &Operands, depth: usize) -> Kind
    requires { depth < length stack.now }
    ensures { slice_get stack.now depth ≡ Some result }
{
    match stack.at(depth) {
        Some(kind) => kind,
        None => unreachable!(),
    }
}

/// Whether the operands take at most so many units.
pub fn is_within(stack: &Operands, most: u16) -> bool
    ensures { IsTrue result ↔ (units stack.now ≤ most) }
{
    let mut left = most;
    for depth in 0..stack.len() {
        let width = width_of(kind_at(stack, depth));
        if width > left {
            return false;
        }
        left -= width;
    }
    true
}

/// Whether an object that the *new* at an offset made is among the operands.
pub fn has_fresh(stack: &Operands, offset: u32) -> bool
    ensures { result ≡ list_any (is_fresh offset) stack.now }
{
    for depth in 0..stack.len() {
        if is_fresh_at(offset, kind_at(stack, depth)) {
            return true;
        }
    }
    false
}

fn operand_fits_at(program: &Linked, stack: &Operands, wanted: &[Kind], depth: usize) -> bool
    requires kind { depth < length stack.now }
    requires wanted { depth < length wanted.now }
    ensures { IsTrue result ↔ FitsAt (operand_fits program.now) stack.now wanted.now depth }
{
    is_operand_for(program, kind_at(stack, depth), wanted[depth])
}

/// Whether the operands may stand for those that are wanted, the top first.
#[tactic(auto, using(crate::proofs::Pairs::all_long, crate::proofs::Pairs::all_from))]
pub fn operands_fit(program: &Linked, stack: &Operands, wanted: &[Kind]) -> bool
    ensures { IsTrue result ↔ AllFit (operand_fits program.now) stack.now wanted.now }
{
    let count = stack.len();
    if count != wanted.len() {
        return false;
    }
    for depth in 0..count {
        if !operand_fits_at(program, stack, wanted, depth) {
            return false;
        }
    }
    true
}
