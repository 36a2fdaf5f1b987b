//! The instructions of the code.

ghost use Rattle.jvm_class_first.specs.Instructions.{step_pieces, instructions};
ghost use Rattle.jvm_class_first.specs.Instructions as definition;
ghost use Rattle.kt_base.specs.declared.stack_code.Plain.TheVariants as plain;
ghost use Rattle.jvm_class_first.specs.ClassFile.{AreOfPlain, widths};
ghost use Rattle.jvm_pieces.specs.Pieces.{with_pieces};
ghost use Rattle.jvm_pool.specs.Entries.{behind, units};
ghost use Rattle.std.specs.List.{flat_map};
ghost use Rattle.std.specs.Prelude.{◌≡◌, ◌+◌, ◌*◌, ◌≤◌, ◌∷◌, length, IfOk, OnOk};

use crate::draft::ClassDraft;
use crate::names::method;
use jvm_pool::Entry;
use kt_base::{NoMemory, Plain};
use std::alloc::Global;

/// The method that counts a turn.
pub fn tick(alloc: Global) -> Result<Entry, NoMemory>
    ensures kinds { IfOk result (λ e. AreOfPlain (e ∷ behind e)) }
    ensures value { IfOk result (λ e. e ≡ definition.tick) }
{
    method(alloc, b"kt/rt/Turn", b"tick", b"()V")
}

/// The method that makes a text of a number.
fn text_of(alloc: Global) -> Result<Entry, NoMemory>
    ensures kinds { IfOk result (λ e. AreOfPlain (e ∷ behind e)) }
    ensures value { IfOk result (λ e. e ≡ definition.text_of) }
{
    method(alloc, b"kt/rt/Text", b"of", b"(I)Ljava/lang/String;")
}

/// The method that prints a text on a line of its own.
fn println(alloc: Global) -> Result<Entry, NoMemory>
    ensures kinds { IfOk result (λ e. AreOfPlain (e ∷ behind e)) }
    ensures value { IfOk result (λ e. e ≡ definition.println) }
{
    method(alloc, b"kt/rt/Out", b"println", b"(Ljava/lang/String;)V")
}

/// Appends the steps.
#[tactic(auto, unfolding(jvm_pieces::specs::Pieces::with_pieces))]
pub fn put_steps(draft: &mut ClassDraft, alloc: Global, code: &[Plain]) -> Result<(), NoMemory>
    requires room { units draft.old.pool + 12 * length code.now ≤ 50000 }
    ensures ok { OnOk result (draft.new ≡ with_pieces (flat_map step_pieces code.now) draft.old) }
    ensures grows { OnOk result (units draft.new.pool ≤ units draft.old.pool + 12 * length code.now) }
{
    for step in code {
        put_step(draft, alloc, step)?;
    }
    Ok(())
}

/// Appends a step.
#[tactic(auto, unfolding(jvm_pieces::specs::Pieces::with_pieces))]
fn put_step(draft: &mut ClassDraft, alloc: Global, step: &Plain) -> Result<(), NoMemory>
    requires room { units draft.old.pool ≤ 50000 }
    ensures ok { OnOk result (draft.new ≡ with_pieces (step_pieces step.now) draft.old) }
    ensures grows { OnOk result (units draft.new.pool ≤ units draft.old.pool + 12) }
{
    match step {
        Plain::Push(n) => put_push(draft, *n),
        Plain::Add => draft.bytes(&[0x60]),
        Plain::Sub => draft.bytes(&[0x64]),
        Plain::Mul => draft.bytes(&[0x68]),
        Plain::Print => put_print(draft, alloc),
    }
}

/// Appends the push of a number.
#[tactic(auto, unfolding(jvm_pieces::specs::Pieces::with_pieces))]
fn put_push(draft: &mut ClassDraft, n: i32) -> Result<(), NoMemory>
    requires room { units draft.old.pool ≤ 50000 }
    ensures ok { OnOk result (draft.new ≡ with_pieces (step_pieces (plain.Push n)) draft.old) }
    ensures grows { OnOk result (units draft.new.pool ≤ units draft.old.pool + 6) }
{
    draft.bytes(&[0x13])?;
    draft.mention(&Entry::Int(n))
}

/// Appends the two calls of a print.
#[tactic(auto, unfolding(jvm_pieces::specs::Pieces::with_pieces))]
fn put_print(draft: &mut ClassDraft, alloc: Global) -> Result<(), NoMemory>
    requires room { units draft.old.pool ≤ 50000 }
    ensures ok { OnOk result (draft.new ≡ with_pieces (step_pieces plain.Print) draft.old) }
    ensures grows { OnOk result (units draft.new.pool ≤ units draft.old.pool + 12) }
{
    let text_of = text_of(alloc)?;
    draft.call(&text_of)?;
    let println = println(alloc)?;
    draft.call(&println)
}

/// How many bytes the instructions take.
#[tactic(auto, using(crate::proofs::Parts::width_more))]
pub fn code_length(code: &[Plain]) -> u32
    requires { length code.now ≤ 512 }
    ensures value { result ≡ widths (instructions code.now) }
    ensures most { result ≤ 4 + 6 * length code.now }
{
    let mut length = 4;
    for step in code {
        length += step_length(step);
    }
    length
}

/// How many bytes the instructions of a step take.
fn step_length(step: &Plain) -> u32
    ensures value { result ≡ widths (step_pieces step.now) }
    ensures most { result ≤ 6 }
{
    match step {
        Plain::Push(_) => 3,
        Plain::Add | Plain::Sub | Plain::Mul => 1,
        Plain::Print => 6,
    }
}
