//! Members of classes, by class, name and descriptor.

ghost use Rattle.class_index.specs.Members.{IsWhole, PutsPlace, key_in, member_in, place_in};
ghost use Rattle.class_index.specs.Texts.{or_at};
ghost use Rattle.std.specs.Prelude.{◌≡◌, ◌==◌, ◌&&◌, ℕ, List, OnOk, None, bytes_eq};

use crate::texts::TextIndex;
use kt_base::NoMemory;
use std::alloc::Global;
use std::collections::BTreeMap;

/// A name and a descriptor, by their numbers in an index.
#[derive(Clone, Copy)]
pub struct MemberKey {
    pub name: usize,
    pub descriptor: usize,
}

/// Members of classes, each with its place: the first one that was added of a class, a name and a descriptor.
///
/// A look-up takes logarithmic time and no memory. Where several classes are asked for one member, its key is found
/// once.
#[derive(Drop)]
pub struct MemberIndex {
    pub texts: TextIndex,
    /// By the class, the number of the name and the number of the descriptor.
    pub places: BTreeMap<(usize, usize, usize), usize>,
}

impl MemberIndex {
    /// No class has a member.
    pub fn new(alloc: Global) -> MemberIndex
        ensures none { (class : ℕ) (name descriptor : List ℕ) → member_in result class name descriptor ≡ None }
        ensures whole { IsWhole result }
    {
        MemberIndex {
            texts: TextIndex::new(alloc),
            places: BTreeMap::new(alloc),
        }
    }

    /// The key of a name and a descriptor: `None` where no class has a member of these.
    pub fn key(&self, name: &[u8], descriptor: &[u8]) -> Option<MemberKey>
        ensures { result ≡ key_in self.now name.now descriptor.now }
    {
        match self.texts.find(name) {
            None => None,
            Some(name) => match self.texts.find(descriptor) {
                None => None,
                Some(descriptor) => Some(MemberKey { name, descriptor }),
            },
        }
    }

    /// The place of a class's member of a key: `None` where the class has none.
    pub fn at(&self, class: usize, key: MemberKey) -> Option<usize>
        ensures { result ≡ place_in self.now class key }
    {
        let found = (class, key.name, key.descriptor);
        self.places.get(&found).copied()
    }

    /// The place of a class's member of a name and a descriptor: `None` where the class has none.
    pub fn find(&self, class: usize, name: &[u8], descriptor: &[u8]) -> Option<usize>
        ensures { result ≡ member_in self.now class name.now descriptor.now }
    {
        match self.key(name, descriptor) {
            None => None,
            Some(key) => self.at(class, key),
        }
    }

    fn put(&mut self, class: usize, key: MemberKey, place: usize) -> Result<(), NoMemory>
        ensures { OnOk result (PutsPlace self.old self.new class key place) }
    {
        if self.at(class, key).is_none() {
            let _before = self
                .places
                .insert((class, key.name, key.descriptor), place)?;
        }
        Ok(())
    }

    /// Adds a member with its place, unless the class has one of that name and descriptor.
    pub fn add(
        &mut self,
        alloc: Global,
        class: usize,
        name: &[u8],
        descriptor: &[u8],
        place: usize,
    ) -> Result<(), NoMemory>
        requires { IsWhole self.old }
        ensures added { OnOk result ((c : ℕ) (n d : List ℕ) → member_in self.new c n d
            ≡ or_at (member_in self.old c n d) (class == c && bytes_eq name.now n && bytes_eq descriptor.now d) place) }
        ensures whole { OnOk result (IsWhole self.new) }
    {
        let name = self.texts.number_of(alloc, name)?;
        let descriptor = self.texts.number_of(alloc, descriptor)?;
        self.put(class, MemberKey { name, descriptor }, place)
    }
}
