//! A class file that is being written.

ghost use Rattle.jvm_class_first.specs.ClassFile.{number, AreOfPlain};
ghost use Rattle.jvm_class_first.specs.Instructions.{call};
ghost use Rattle.jvm_pieces.specs.Pieces.{Bytes, Mention, draft, with_piece, with_pieces};
ghost use Rattle.jvm_pool.specs.Entries.{behind, units};
ghost use Rattle.std.specs.Prelude.{◌≡◌, ◌+◌, ◌≤◌, ◌∷◌, [], OnOk};

use jvm_pieces::{put_bytes, put_mention};
use jvm_pool::{Entry, Pool, PoolErr};
use kt_base::NoMemory;
use std::alloc::Global;
use std::marker::Model;

/// A class file that is being written: its pool so far, and the bytes behind the pool.
#[derive(Drop)]
pub struct ClassDraft {
    pool: Pool,
    body: Vec<u8>,
}

impl Model for ClassDraft {
    ghost use Rattle.jvm_pieces.specs.Pieces.{Draft, draft};
    ghost use Rattle.jvm_class_first.specs.ClassFile.{AreOfPlain};

    ghost Value = { Draft };

    ghost view = { λ d. draft d.pool d.body.items };

    ghost invariant = { λ d. AreOfPlain d.pool };
}

impl ClassDraft {
    /// Nothing yet.
    pub fn new(alloc: Global) -> ClassDraft
        ensures { result ≡ draft [] [] }
    {
        ClassDraft {
            pool: Pool::new(alloc),
            body: Vec::new(alloc),
        }
    }

    /// The pool so far.
    pub fn pool(&self) -> &Pool
        ensures value { result.now ≡ self.now.pool }
        ensures kinds { AreOfPlain self.now.pool }
    {
        &self.pool
    }

    /// The bytes behind the pool.
    pub fn body(&self) -> &[u8]
        ensures { result.now ≡ self.now.body }
    {
        self.body.as_slice()
    }

    /// Appends bytes.
    pub fn bytes(&mut self, bytes: &[u8]) -> Result<(), NoMemory>
        ensures { OnOk result (self.new ≡ with_piece (Bytes bytes.now) self.old) }
    {
        put_bytes(bytes, &mut self.body)
    }

    /// Appends a number of two bytes.
    pub fn number(&mut self, n: u16) -> Result<(), NoMemory>
        ensures { OnOk result (self.new ≡ with_piece (number n) self.old) }
    {
        self.bytes(&n.to_be_bytes())
    }

    /// Appends the index of an entry, which adds at most the entry and its five parts to the pool.
    #[tactic(auto, using(crate::proofs::Grown::mention_kept, crate::proofs::Grown::mention_grows))]
    pub fn mention(&mut self, e: &Entry) -> Result<(), NoMemory>
        requires kinds { AreOfPlain (e.now ∷ behind e.now) }
        requires room { units self.old.pool ≤ 60000 }
        ensures ok { OnOk result (self.new ≡ with_piece (Mention e.now) self.old) }
        ensures grows { OnOk result (units self.new.pool ≤ units self.old.pool + 6) }
    {
        match put_mention(e, &mut self.pool, &mut self.body) {
            Ok(()) => Ok(()),
            Err(PoolErr::NoMemory) => Err(NoMemory),
            Err(PoolErr::Full) => unreachable!(),
        }
    }

    /// Appends a call of a static method.
    #[tactic(auto, unfolding(jvm_pieces::specs::Pieces::with_pieces))]
    pub fn call(&mut self, method: &Entry) -> Result<(), NoMemory>
        requires kinds { AreOfPlain (method.now ∷ behind method.now) }
        requires room { units self.old.pool ≤ 60000 }
        ensures ok { OnOk result (self.new ≡ with_pieces (call method.now) self.old) }
        ensures grows { OnOk result (units self.new.pool ≤ units self.old.pool + 6) }
    {
        self.bytes(&[0xB8])?;
        self.mention(method)
    }
}
