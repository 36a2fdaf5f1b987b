//! Classes of which it is asked what they have from above.

ghost use Rattle.kt_decls_facts.specs.Facts.{Knows};
ghost use Rattle.kt_decls_rules.specs.Rules.{IsGrounded};
ghost use Rattle.kt_decls_rules.specs.Tables.{hierarchy_of};
ghost use Rattle.kt_tree.specs.Declarations.{declaration_tree};
ghost use Rattle.std.specs.Prelude.{◌↔◌, map, IsTrue};

use kt_decls_facts::FileFacts;
use kt_decls_hierarchy::marks::flag_of;
use kt_tree::Declaration;

/// Whether no class at or above the one in a row is above itself. A row without a class leads nowhere.
pub fn is_grounded(file: &[Declaration], facts: &FileFacts, row: u32) -> bool
    requires known { Knows (map declaration_tree file.now) facts.now }
    ensures { IsTrue result ↔ IsGrounded (hierarchy_of (map declaration_tree file.now)) row }
{
    let classes = facts.hierarchy.classes.len();
    if (row as usize) < classes {
        flag_of(&facts.links.grounded, row as usize)
    } else {
        true
    }
}
