//! Entries as they stand in a file, each once, with their offsets and indices.

ghost use Rattle.jvm_pool_bytes.specs.Raws.{raw_at, raw_size, raw_units};
ghost use Rattle.jvm_pool_bytes.specs.Reading.{raws_of};
ghost use Rattle.jvm_pool_bytes.specs.Raws.{same_raw};
ghost use Rattle.std.specs.List.{list_any};
ghost use Rattle.std.specs.Prelude.{◌≡◌, ◌+◌, ◌≤◌, ◌∷◌, ◌++◌, [], false, length, option_copied, option_map, slice_get, IfOk};

use indexmap::IndexSet;
use jvm_pool_bytes::lookups::entry_at;
use jvm_pool_bytes::raws::RawEntry;
use kt_base::NoMemory;
use std::alloc::Global;
use std::marker::Model;

/// Entries of a constant pool as they stand in a file, in order, each with its offset there.
#[derive(Drop)]
pub struct Raws {
    entries: IndexSet<RawEntry>,
    starts: Vec<u16>,
    offsets: Vec<u64>,
    next: u32,
}

impl Model for Raws {
    ghost use Rattle.std.specs.Prelude.{ℕ, List};
    ghost use Rattle.std.specs.List.{zip};
    ghost use Rattle.jvm_pool_bytes.specs.declared.raws.RawEntry.{RawEntry};
    ghost use Rattle.jvm_pool_reader.specs.Checked.{AreNumbered};

    ghost Value = { List (ℕ × RawEntry) };

    ghost view = { λ r. zip r.offsets.items r.entries.keys };

    ghost invariant = { λ r. AreNumbered r.offsets.items r.entries.keys r.starts.items r.next };
}

impl Raws {
    /// No entries. It takes no memory.
    pub fn new(alloc: Global) -> Raws
        ensures { result ≡ [] }
    {
        Raws {
            entries: IndexSet::new(alloc),
            starts: Vec::new(alloc),
            offsets: Vec::new(alloc),
            next: 1,
        }
    }

    /// The index behind the last entry.
    pub fn next(&self) -> u32
        ensures value { result ≡ 1 + raw_units (raws_of self.now) }
        ensures fits { result ≤ 65535 }
    {
        self.next
    }

    /// Whether the entry stands there.
    pub fn contains(&self, raw: &RawEntry) -> bool
        ensures { result ≡ list_any (same_raw raw.now) (raws_of self.now) }
    {
        self.entries.contains(raw)
    }

    /// The entry that starts at an index: `None` exactly where none does.
    pub fn get(&self, index: u16) -> Option<&RawEntry>
        ensures { option_copied result ≡ raw_at 1 (raws_of self.now) index }
    {
        entry_at(&self.entries, self.starts.as_slice(), index)
    }

    /// How many entries there are.
    pub fn len(&self) -> usize
        ensures { result ≡ length self.now }
    {
        self.entries().len()
    }

    /// The entry at a position, with its offset.
    #[tactic(auto, using(crate::proofs::Judging::no_offset, crate::proofs::Judging::no_raw))]
    pub fn at(&self, position: usize) -> Option<(u64, &RawEntry)>
        ensures { option_map (λ x. (x.0, x.1.now)) result ≡ slice_get self.now position }
    {
        let raw = self.entries.get_index(position)?;
        let offset = self.offsets.get(position)?;
        Some((*offset, raw))
    }

    /// The entries in order.
    pub fn entries(&self) -> &[RawEntry]
        ensures { result.now ≡ raws_of self.now }
    {
        self.entries.as_slice()
    }

    /// The entries, and behind them one that isn't among them, at an offset.
    pub fn with(self, at: u64, raw: RawEntry) -> Result<Raws, NoMemory>
        requires absent { list_any (same_raw raw) (raws_of self) ≡ false }
        requires fits { 1 + raw_units (raws_of self) + raw_size raw ≤ 65535 }
        ensures { IfOk result (λ raws. raws ≡ self ++ (at, raw) ∷ []) }
    {
        let Raws {
            mut entries,
            mut starts,
            mut offsets,
            next,
        } = self;
        let behind = next + raw.size();
        starts.push(next as u16)?;
        offsets.push(at)?;
        entries.insert(raw)?;
        Ok(Raws {
            entries,
            starts,
            offsets,
            next: behind,
        })
    }
}
