//! A constant pool that grows (JVMS SE 8 §4.1, §4.4).

ghost use Rattle.indexmap.specs.IndexMap.{keys, values};
ghost use Rattle.jvm_pool.specs.Entries.{size, units};
ghost use Rattle.jvm_pool.specs.Mentions.{has, seek, with_each, with_mention, with_one};
ghost use Rattle.jvm_pool.specs.Numbering.{AreDifferent};
ghost use Rattle.jvm_pool.specs.Numbering.{entry_at, starts, Grows};
ghost use Rattle.std.specs.Prelude.{◌≡◌, ◌+◌, ◌<◌, ◌≤◌, ◌↔◌, ◌∷◌, ◌++◌, [], length, take, slice_get, option_copied, IfOk, IfSome, IsTrue, OnErr, OnOk, Err, None, Some, false};

use crate::entries::Entry;
use crate::errors::PoolErr;
use indexmap::IndexMap;
use kt_base::NoMemory;
use std::alloc::Global;
use std::marker::Model;

/// The entries of a constant pool, each once, in the order of their first mention.
///
/// The first entry has index 1, and each next one follows directly, a `long` taking two indices. A class file's pool
/// has at most 65,534 indices.
#[derive(Debug, Drop)]
pub struct Pool {
    alloc: Global,
    indices: IndexMap<Entry, u16>,
    count: u32,
}

impl Model for Pool {
    ghost use Rattle.std.specs.Prelude.{List};
    ghost use Rattle.indexmap.specs.IndexMap.{keys};
    ghost use Rattle.jvm_pool.specs.declared.entries.Entry.{Entry};
    ghost use Rattle.jvm_pool.specs.Numbering.{IsNumbered};

    ghost Value = { List Entry };

    ghost view = { λ p. keys p.indices };

    ghost invariant = { λ p. IsNumbered p.indices.entries p.count };
}

impl Pool {
    /// The pool without entries. It takes no memory.
    pub fn new(alloc: Global) -> Pool
        ensures { result ≡ [] }
    {
        Pool {
            alloc,
            indices: IndexMap::new(alloc),
            count: 1,
        }
    }

    /// The pool of these entries as they stand, in order: no part of them is added.
    ///
    /// They are what a class file's pool has, so they differ, and the count fits.
    pub fn of_entries(alloc: Global, entries: Vec<Entry>) -> Result<Pool, NoMemory>
        requires differ { AreDifferent entries.items }
        requires fits { 1 + units entries.items ≤ 65535 }
        ensures { IfOk result (λ pool. pool ≡ entries.items) }
    {
        let mut pool = Pool::new(alloc);
        for e in entries {
            pool.push(e)?;
        }
        Ok(pool)
    }

    /// How many entries there are.
    pub fn len(&self) -> usize
        ensures { result ≡ length self.now }
    {
        self.indices.len()
    }

    /// Whether there are no entries.
    pub fn is_empty(&self) -> bool
        ensures { IsTrue result ↔ (length self.now ≡ 0) }
    {
        self.indices.is_empty()
    }

    /// The `constant_pool_count` of a class file (§4.1): one more than the last index.
    pub fn count(&self) -> u32
        ensures value { result ≡ 1 + units self.now }
        ensures fits { result ≤ 65535 }
    {
        self.count
    }

    /// The entries in order.
    pub fn entries(&self) -> &[Entry]
        ensures { result.now ≡ self.now }
    {
        self.indices.keys().as_slice()
    }

    /// The index of an entry: `None` exactly where it isn't there. Takes no memory.
    pub fn index_of(&self, e: &Entry) -> Option<u16>
        ensures { result ≡ seek 1 self.now e.now }
    {
        self.indices.get(e).copied()
    }

    /// The entry that starts at an index: `None` exactly where none does.
    pub fn get(&self, index: u16) -> Option<&Entry>
        ensures value { option_copied result ≡ entry_at 1 self.now index }
        ensures once { IfSome result (λ e. seek 1 self.now e.now ≡ Some index) }
    {
        let position = position_of(&self.indices, index)?;
        let (entry, _) = self.indices.get_index(position)?;
        Some(entry)
    }

    /// The index of the entry. Where it is absent, it is added, and its parts directly behind it.
    ///
    /// `Full` comes exactly where the count would pass 65,535. An error leaves the pool as it was.
    pub fn add(&mut self, e: &Entry) -> Result<u16, PoolErr>
        ensures index { IfOk result (λ index. seek 1 self.new e.now ≡ Some index) }
        ensures grown { OnOk result (self.new ≡ with_mention e.now self.old) }
        ensures room { OnOk result (1 + units (with_mention e.now self.old) ≤ 65535) }
        ensures full { result ≡ Err PoolErr.Full → 65535 < 1 + units (with_mention e.now self.old) }
        ensures err { OnErr result (self.new ≡ self.old) }
    {
        if let Some(index) = self.index_of(e) {
            return Ok(index);
        }
        let length = self.indices.len();
        let count = self.count;
        match self.add_new(e) {
            Ok(()) => Ok(count as u16),
            Err(error) => {
                self.indices.truncate(length);
                self.count = count;
                Err(error)
            }
        }
    }

    /// Appends an entry that is absent, as it stands, without its parts.
    ///
    /// Whether it is absent, `index_of` tells. An error leaves the pool as it was.
    pub fn push(&mut self, e: Entry) -> Result<(), NoMemory>
        requires absent { has self.old e ≡ false }
        requires fits { 1 + units (self.old ++ e ∷ []) ≤ 65535 }
        ensures ok { OnOk result (self.new ≡ self.old ++ e ∷ []) }
        ensures err { OnErr result (self.new ≡ self.old) }
    {
        let count = self.count + e.size();
        self.indices.insert(e, self.count as u16)?;
        self.count = count;
        Ok(())
    }

    /// Cuts the pool back to its first entries, so many of them, as it was when it had these alone. Takes no memory.
    pub fn truncate(&mut self, kept: usize)
        ensures { self.new ≡ take kept self.old }
    {
        if let Some(start) = start_of(&self.indices, kept) {
            self.indices.truncate(kept);
            self.count = u32::from(start);
        }
    }

    /// Adds an entry that is absent, and its parts. An error may leave some of them.
    fn add_new(&mut self, e: &Entry) -> Result<(), PoolErr>
        requires { has self.old e.now ≡ false }
        ensures { Grows self.old self.new (with_mention e.now self.old) result }
    {
        self.add_one(e.clone()?)?;
        let parts = e.parts(self.alloc)?;
        self.add_each(parts)
    }

    /// Adds each of these alone. An error may leave some of them.
    fn add_each(&mut self, entries: Vec<Entry>) -> Result<(), PoolErr>
        ensures { Grows self.old self.new (with_each entries.items self.old) result }
    {
        for e in entries {
            self.add_one(e)?;
        }
        Ok(())
    }

    /// Adds an entry without its parts.
    fn add_one(&mut self, e: Entry) -> Result<(), PoolErr>
        ensures { Grows self.old self.new (with_one e (λ es. es) self.old) result }
    {
        if self.index_of(&e).is_some() {
            return Ok(());
        }
        if self.count + e.size() > 65535 {
            return Err(PoolErr::Full);
        }
        self.push(e)?;
        Ok(())
    }
}

/// The index of the entry at a position.
fn start_of(indices: &IndexMap<Entry, u16>, position: usize) -> Option<u16>
    ensures { result ≡ slice_get (values indices.now) position }
{
    let (_, start) = indices.get_index(position)?;
    Some(*start)
}

/// The position of the entry that starts at an index.
fn position_of(indices: &IndexMap<Entry, u16>, index: u16) -> Option<usize>
    requires { values indices.now ≡ starts 1 (keys indices.now) }
    ensures found { IfSome result (λ position. slice_get (values indices.now) position ≡ Some index) }
    ensures none { result ≡ None → entry_at 1 (keys indices.now) index ≡ None }
{
    indices.values().as_slice().binary_search(&index).ok()
}
