//! The objects inside of which an export is.

ghost use Rattle.mach_value.specs.Paths.{Enters, Leaves, is_on};
ghost use Rattle.std.specs.Prelude.{◌≡◌, ℕ, false, OnOk};

use kt_base::NoMemory;
use std::alloc::Global;
use std::collections::BTreeSet;

/// The addresses of the objects whose fields are being exported.
#[derive(Drop)]
pub struct Path {
    inside: BTreeSet<u64>,
}

impl Path {
    /// Inside of none.
    pub fn new(alloc: Global) -> Path
        ensures { (a : ℕ) → is_on result a ≡ false }
    {
        Path {
            inside: BTreeSet::new(alloc),
        }
    }

    /// Whether it is inside of this object.
    pub fn has(&self, address: u64) -> bool
        ensures { result ≡ is_on self.now address }
    {
        self.inside.contains(&address)
    }

    /// Goes into an object.
    pub fn enter(&mut self, address: u64) -> Result<(), NoMemory>
        ensures { OnOk result (Enters self.old self.new address) }
    {
        self.inside.insert(address)?;
        Ok(())
    }

    /// Leaves an object.
    pub fn leave(&mut self, address: u64)
        ensures { Leaves self.old self.new address }
    {
        self.inside.remove(&address);
    }
}
