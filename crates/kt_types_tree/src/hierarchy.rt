//! The headers of classes as subtyping sees them.

ghost use Rattle.kt_types_tree.specs.Hierarchy.{super_form, hierarchy_form, supers_of};
ghost use Rattle.std.specs.Prelude.{◌≡◌, map};

use crate::types::KtType;
use sqlite_items::{Items, at};

/// What a class is declared as.
#[derive(Clone, Copy, Debug, PartialEq, Eq)]
pub enum ClassKind {
    /// `class`, and each throwable
    Class,
    /// `data class`
    DataClass,
    /// `enum class`
    Enum,
    /// `interface`
    Interface,
}

/// A declared supertype, whose arguments speak of the type parameters of the class that declares it.
#[derive(Drop)]
pub struct Supertype {
    /// Its row in the hierarchy
    pub class: u32,
    pub arguments: Items<KtType>,
}

/// The header of a class, an interface, an enum or a throwable.
#[derive(Drop)]
pub struct ClassHeader {
    pub kind: ClassKind,
    /// How many type parameters it has
    pub parameters: u32,
    /// The row of the bound of the first of them; the bounds of the others stand behind it
    pub first_bound: u32,
    /// In the order in which they are written
    pub supertypes: Items<Supertype>,
    /// Whether it declares `toString`, or inherits one that is declared in the unit
    pub has_to_string: bool,
    /// Whether it declares `equals`, or inherits one that is declared in the unit
    pub has_equals: bool,
}

/// All classes by their rows, and the bounds of all type parameters: `Any?` where none is written.
#[derive(Drop)]
pub struct Hierarchy {
    pub classes: Items<ClassHeader>,
    pub bounds: Items<KtType>,
}

impl Hierarchy {
    /// The declared supertypes of a class; none where there is no such class.
    pub fn supertypes_of(&self, class: u32) -> &[Supertype]
        ensures { map super_form result.now ≡ supers_of (hierarchy_form self.now) class }
    {
        match at(self.classes.as_slice(), class as usize) {
            Some(header) => header.supertypes.as_slice(),
            None => &[],
        }
    }
}
