//! What is known of names where a type is written.

ghost use Rattle.kt_decls_types.specs.Scopes as spec;
ghost use Rattle.std.specs.Prelude.{◌≡◌, ◌<◌, ◌^◌, length, ℕ, List, None, OnOk};
ghost use Rattle.kt_decls_types.specs.declared.scopes.Unresolved.TheVariants.{NoMemory};

use kt_base::{Name, NoMemory as WantOfMemory};
use kt_typed::DeclaredTypeParameter;
use std::alloc::{AllocError, Global};
use std::collections::BTreeMap;

/// Why a type that is written has no meaning.
#[derive(Clone, Copy, Debug, PartialEq, Eq)]
pub enum Unresolved {
    /// It breaks a rule.
    Refused,
    NoMemory,
}

impl From<AllocError> for Unresolved {
    ghost from_gives = { λ _ e. e ≡ NoMemory };

    fn from(_: AllocError) -> Unresolved {
        Unresolved::NoMemory
    }
}

impl From<WantOfMemory> for Unresolved {
    ghost from_gives = { λ _ e. e ≡ NoMemory };

    fn from(_: WantOfMemory) -> Unresolved {
        Unresolved::NoMemory
    }
}

/// A class, an interface, an enum or a throwable that has a name.
#[derive(Clone, Copy, Debug, PartialEq, Eq)]
pub struct NamedClass {
    /// Its row in the hierarchy.
    pub row: u32,
    /// How many type parameters it has.
    pub parameters: u32,
}

/// The classes by their names.
#[derive(Drop)]
pub struct ClassNames {
    pub by_name: BTreeMap<Name, NamedClass>,
}

impl ClassNames {
    /// None.
    pub fn new(alloc: Global) -> ClassNames
        ensures { (name : List ℕ) → spec.class_named result name ≡ None }
    {
        ClassNames {
            by_name: BTreeMap::new(alloc),
        }
    }

    /// Adds a class, unless one of its name is there.
    pub fn add(&mut self, name: &Name, class: NamedClass) -> Result<(), WantOfMemory>
        ensures { OnOk result ((x : List ℕ) →
            spec.class_named self.new x ≡ spec.or_named (spec.class_named self.old x) name.now class x) }
    {
        if !self.by_name.contains_key(name) {
            let _before = self.by_name.insert(name.clone()?, class)?;
        }
        Ok(())
    }

    /// The class of that name, in logarithmic time.
    pub fn class_named(&self, name: &Name) -> Option<NamedClass>
        ensures { result ≡ spec.class_named self.now name.now }
    {
        self.by_name.get(name).copied()
    }
}

/// Where a type parameter stands.
#[derive(Clone, Copy, Debug, PartialEq, Eq)]
pub struct NamedParameter {
    /// Its row among the bounds of all type parameters.
    pub row: u32,
    /// Its place among those of its declaration.
    pub place: u32,
}

/// The first type parameter of that name.
pub fn parameter_named(parameters: &[DeclaredTypeParameter], name: &Name) -> Option<NamedParameter>
    requires { length parameters.now < 2 ^ 32 }
    ensures { result ≡ spec.parameter_named parameters.now name.now }
{
    let mut place = 0;
    for each in parameters {
        if each.name == *name {
            return Some(NamedParameter {
                row: each.row,
                place,
            });
        }
        place += 1;
    }
    None
}
