//! Entries of a pool that are looked for by what they say. No call here takes memory.

ghost use Rattle.jvm_pool.specs.Entries.{same, same_text, size};
ghost use Rattle.jvm_pool.specs.Mentions.{has, seek};
ghost use Rattle.jvm_pool_judging.specs.Placing.{entry_sought};
ghost use Rattle.std.specs.Prelude.{◌≡◌, ◌+◌, ◌<◌, None, IfSome, false};

use jvm_pool::{Entry, Pool};

/// An entry that is looked for.
#[derive(Clone, Copy)]
pub enum Sought<'a> {
    /// The text of a name.
    Name(&'a [u8]),
    /// A text.
    Text(&'a [u16]),
    /// A class, by its name.
    Class(&'a [u8]),
    /// A name and a descriptor.
    Pair(&'a [u8], &'a [u8]),
}

/// Whether each byte is the unit at its place.
fn are_units(bytes: &[u8], units: &[u16]) -> bool
    ensures { result ≡ same_text bytes.now units.now }
{
    if bytes.len() != units.len() {
        return false;
    }
    for index in 0..bytes.len() {
        if u16::from(bytes[index]) != units[index] {
            return false;
        }
    }
    true
}

impl<'a> Sought<'a> {
    /// Whether an entry is the one that is looked for.
    pub fn is(self, e: &Entry) -> bool
        ensures { result ≡ same (entry_sought self.entry) e.now }
    {
        match (self, e) {
            (Sought::Name(name), Entry::Utf8(text)) => are_units(name, text.units()),
            (Sought::Text(units), Entry::Utf8(text)) => units == text.units(),
            (Sought::Class(name), Entry::Class(other)) => name == other.as_bytes(),
            (Sought::Pair(name, descriptor), Entry::NameAndType(other, others)) => {
                name == other.as_bytes() && descriptor == others.as_bytes()
            }
            _ => false,
        }
    }

    /// The counter behind the entry.
    pub fn next(self, counter: u32) -> u32
        requires { counter < 65536 }
        ensures { result ≡ counter + size (entry_sought self.entry) }
    {
        match self {
            Sought::Name(_) | Sought::Text(_) | Sought::Class(_) | Sought::Pair(_, _) => counter
                + 1,
        }
    }
}

/// The first of these entries that is looked for.
fn find<'a>(entries: &'a [Entry], sought: Sought<'_>) -> Option<&'a Entry>
    ensures some { IfSome result (λ e. e.now ≡ entry_sought sought.entry) }
    ensures none { result ≡ None → has entries.now (entry_sought sought.entry) ≡ false }
{
    for e in entries {
        if sought.is(e) {
            return Some(e);
        }
    }
    None
}

/// The index of an entry: `None` exactly where it isn't in the pool.
#[tactic(auto, using(crate::proofs::Told::none_there))]
pub fn index_of(pool: &Pool, sought: Sought<'_>) -> Option<u16>
    ensures { result ≡ seek 1 pool.now (entry_sought sought.entry) }
{
    match find(pool.entries(), sought) {
        Some(e) => pool.index_of(e),
        None => None,
    }
}
