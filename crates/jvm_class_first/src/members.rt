//! What stands behind the pool: the class, its method, and the method's code.

ghost use Rattle.jvm_class_first.specs.ClassFile.{class_pieces};
ghost use Rattle.jvm_class_first.specs.Instructions.{call, instructions, max_stack, tick};
ghost use Rattle.jvm_class_first.specs.Parts.{code_front, counts, ending, method_front, names};
ghost use Rattle.jvm_pieces.specs.Pieces.{Mention, draft, with_piece, with_pieces};
ghost use Rattle.jvm_pool.specs.declared.entries.Entry.TheVariants as entry;
ghost use Rattle.jvm_pool.specs.Entries.{units};
ghost use Rattle.kt_base.specs.StackCode.{nothing, runs};
ghost use Rattle.std.specs.Prelude.{◌≡◌, ◌+◌, ◌*◌, ◌≤◌, ◌++◌, [], length, IfOk, IsSome, OnOk};
ghost use Rattle.std.specs.Str.{IsAscii};

use crate::draft::ClassDraft;
use crate::heights::max_stack;
use crate::instructions::{code_length, put_steps, tick};
use crate::names::{class, short_text};
use kt_base::{NoMemory, Plain};
use std::alloc::Global;

/// What stands behind the pool of the class file of this code, and the pool that it mentions.
pub fn class_draft(alloc: Global, code: &[Plain]) -> Result<ClassDraft, NoMemory>
    requires steps { length code.now ≤ 512 }
    requires runs { IsSome (runs code.now nothing) }
    ensures { IfOk result (λ d. d ≡ with_pieces (class_pieces code.now) (draft [] [])) }
{
    let mut draft = ClassDraft::new(alloc);
    put_head(&mut draft, alloc)?;
    put_code(&mut draft, alloc, code)?;
    Ok(draft)
}

/// The class, and its method as far as its attribute.
fn put_head(draft: &mut ClassDraft, alloc: Global) -> Result<(), NoMemory>
    requires room { units draft.old.pool ≤ 30000 }
    ensures ok { OnOk result (draft.new ≡ with_pieces (names ++ (counts ++ method_front)) draft.old) }
    ensures grows { OnOk result (units draft.new.pool ≤ units draft.old.pool + 24) }
{
    put_names(draft, alloc)?;
    put_counts(draft)?;
    put_method_front(draft, alloc)
}

/// The attribute that has the code, and what stands behind it.
fn put_code(draft: &mut ClassDraft, alloc: Global, code: &[Plain]) -> Result<(), NoMemory>
    requires steps { length code.now ≤ 512 }
    requires runs { IsSome (runs code.now nothing) }
    requires room { units draft.old.pool ≤ 30000 }
    ensures { OnOk result (draft.new ≡ with_pieces
        (code_front code.now ++ (instructions code.now ++ ending)) draft.old) }
{
    put_code_front(draft, alloc, code)?;
    put_instructions(draft, alloc, code)?;
    put_ending(draft)
}

/// A public final class below `Object`.
#[tactic(auto, unfolding(jvm_pieces::specs::Pieces::with_pieces))]
fn put_names(draft: &mut ClassDraft, alloc: Global) -> Result<(), NoMemory>
    requires room { units draft.old.pool ≤ 40000 }
    ensures ok { OnOk result (draft.new ≡ with_pieces names draft.old) }
    ensures grows { OnOk result (units draft.new.pool ≤ units draft.old.pool + 12) }
{
    draft.number(0x0031)?;
    mention_class(draft, alloc, b"MainKt")?;
    mention_class(draft, alloc, b"java/lang/Object")
}

/// Appends the index of a class.
fn mention_class(draft: &mut ClassDraft, alloc: Global, name: &[u8]) -> Result<(), NoMemory>
    requires ascii { IsAscii name.now }
    requires short { length name.now ≤ 255 }
    requires room { units draft.old.pool ≤ 50000 }
    ensures ok { OnOk result (draft.new ≡ with_piece (Mention (entry.Class name.now)) draft.old) }
    ensures grows { OnOk result (units draft.new.pool ≤ units draft.old.pool + 6) }
{
    let e = class(alloc, name)?;
    draft.mention(&e)
}

/// Appends the index of a text of few ASCII bytes.
fn mention_text(draft: &mut ClassDraft, alloc: Global, bytes: &[u8]) -> Result<(), NoMemory>
    requires short { length bytes.now ≤ 255 }
    requires room { units draft.old.pool ≤ 50000 }
    ensures ok { OnOk result (draft.new ≡ with_piece (Mention (entry.Utf8 bytes.now)) draft.old) }
    ensures grows { OnOk result (units draft.new.pool ≤ units draft.old.pool + 6) }
{
    let e = short_text(alloc, bytes)?;
    draft.mention(&e)
}

/// No interfaces, no fields, one method.
#[tactic(auto, unfolding(jvm_pieces::specs::Pieces::with_pieces))]
fn put_counts(draft: &mut ClassDraft) -> Result<(), NoMemory>
    ensures ok { OnOk result (draft.new ≡ with_pieces counts draft.old) }
    ensures grows { OnOk result (units draft.new.pool ≤ units draft.old.pool) }
{
    draft.number(0)?;
    draft.number(0)?;
    draft.number(1)
}

/// A public static method without parameters and result, with one attribute.
#[tactic(auto, unfolding(jvm_pieces::specs::Pieces::with_pieces))]
fn put_method_front(draft: &mut ClassDraft, alloc: Global) -> Result<(), NoMemory>
    requires room { units draft.old.pool ≤ 40000 }
    ensures ok { OnOk result (draft.new ≡ with_pieces method_front draft.old) }
    ensures grows { OnOk result (units draft.new.pool ≤ units draft.old.pool + 12) }
{
    draft.number(0x0009)?;
    mention_text(draft, alloc, b"main")?;
    mention_text(draft, alloc, b"()V")?;
    draft.number(1)
}

/// How many bytes of the attribute stand around the instructions.
const AROUND_CODE: u32 = 12;

/// The attribute that has the code, as far as its instructions: no locals.
#[tactic(auto, unfolding(jvm_pieces::specs::Pieces::with_pieces))]
fn put_code_front(draft: &mut ClassDraft, alloc: Global, code: &[Plain]) -> Result<(), NoMemory>
    requires steps { length code.now ≤ 512 }
    requires runs { IsSome (runs code.now nothing) }
    requires room { units draft.old.pool ≤ 40000 }
    ensures ok { OnOk result (draft.new ≡ with_pieces (code_front code.now) draft.old) }
    ensures grows { OnOk result (units draft.new.pool ≤ units draft.old.pool + 6) }
{
    let length = code_length(code);
    mention_text(draft, alloc, b"Code")?;
    draft.bytes(&(length + AROUND_CODE).to_be_bytes())?;
    draft.number(needed_stack(code))?;
    draft.number(0)?;
    draft.bytes(&length.to_be_bytes())
}

/// The stack that code needs that runs.
#[tactic(auto, using(crate::proofs::Stacks::needed))]
fn needed_stack(code: &[Plain]) -> u16
    requires steps { length code.now ≤ 512 }
    requires runs { IsSome (runs code.now nothing) }
    ensures { result ≡ max_stack code.now }
{
    match max_stack(code) {
        Some(height) => height,
        None => unreachable!(),
    }
}

/// The instructions: a turn, the steps, return.
fn put_instructions(draft: &mut ClassDraft, alloc: Global, code: &[Plain]) -> Result<(), NoMemory>
    requires steps { length code.now ≤ 512 }
    requires room { units draft.old.pool ≤ 40000 }
    ensures ok { OnOk result (draft.new ≡ with_pieces (instructions code.now) draft.old) }
    ensures grows { OnOk result (units draft.new.pool ≤ units draft.old.pool + (6 + 12 * length code.now)) }
{
    put_turn(draft, alloc)?;
    put_steps(draft, alloc, code)?;
    draft.bytes(&[0xB1])?;
    Ok(())
}

/// The call that counts a turn.
fn put_turn(draft: &mut ClassDraft, alloc: Global) -> Result<(), NoMemory>
    requires room { units draft.old.pool ≤ 40000 }
    ensures ok { OnOk result (draft.new ≡ with_pieces (call tick) draft.old) }
    ensures grows { OnOk result (units draft.new.pool ≤ units draft.old.pool + 6) }
{
    let method = tick(alloc)?;
    draft.call(&method)
}

/// No exceptions and no attributes.
#[tactic(auto, unfolding(jvm_pieces::specs::Pieces::with_pieces))]
fn put_ending(draft: &mut ClassDraft) -> Result<(), NoMemory>
    ensures { OnOk result (draft.new ≡ with_pieces ending draft.old) }
{
    draft.number(0)?;
    draft.number(0)?;
    draft.number(0)
}
