//! The parts of a string that were read, and how many levels they hold.

ghost use Rattle.kt_tree.specs.Bodies.{part_tree, parts_of};
ghost use Rattle.kt_tree.specs.Levels.{counted, parts_levels};
ghost use Rattle.std.specs.Prelude.{◌≡◌, ◌∷◌, ◌++◌, [], IfOk, length, map, nat_eq};

use kt_base::NoMemory;
use kt_parser_steps::Node;
use kt_tree::StringPart;
use sqlite_items::Items;
use std::alloc::Global;
use std::marker::Model;

/// The parts of a string that were read so far. The levels are counted as the parts are added, so that a long string isn't
/// walked anew for each of its parts.
#[derive(Drop)]
pub(crate) struct Parts {
    items: Items<StringPart>,
    levels: u32,
}

impl Model for Parts {
    ghost use Rattle.kt_tree.specs.declared.bodies.StringPart.{StringPart};
    ghost use Rattle.kt_tree.specs.Bodies.{part_tree, parts_of};
    ghost use Rattle.kt_tree.specs.Levels.{counted, parts_levels};
    ghost use Rattle.kt_tree.specs.contracts.bodies.StringPart as part;
    ghost use Rattle.std.specs.Coded.{codes};
    ghost use Rattle.std.specs.Prelude.{◌≡◌, List, map};

    ghost Value = { List StringPart };

    ghost coded = { Prim.hlevel (codes, part.the_row.coded) };

    ghost view = { λ p. p.items };

    ghost invariant = { λ p. p.levels ≡ counted (parts_levels (parts_of (map part_tree p.items))) };
}

impl Node for Parts {
    ghost use Rattle.kt_tree.specs.Bodies.{PartTree, part_tree};
    ghost use Rattle.std.specs.Prelude.{List, map};

    ghost Tree = { List PartTree };

    ghost tree = { map part_tree };
}

impl Parts {
    /// No parts.
    pub(crate) fn new(alloc: Global) -> Parts
        ensures { result ≡ [] }
    {
        Parts {
            items: Items::new(alloc),
            levels: 0,
        }
    }

    /// Adds a part behind the others.
    pub(crate) fn push(&mut self, part: StringPart) -> Result<(), NoMemory>
        ensures { IfOk result (λ _. self.new ≡ self.old ++ part ∷ []) }
    {
        let levels = part.levels().max(self.levels);
        self.items.push(part)?;
        self.levels = levels;
        Ok(())
    }

    pub(crate) fn is_empty(&self) -> bool
        ensures { result ≡ nat_eq (length self.now) 0 }
    {
        self.items.is_empty()
    }

    /// How many levels the parts hold.
    pub(crate) fn levels(&self) -> u32
        ensures { result ≡ counted (parts_levels (parts_of (map part_tree self.now))) }
    {
        self.levels
    }

    /// The parts as a list.
    pub(crate) fn into_items(self) -> Items<StringPart>
        ensures { result ≡ self }
    {
        self.items
    }
}
