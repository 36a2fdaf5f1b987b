//! The header of a declaration at top level.

ghost use Rattle.kt_decls_classes.specs.Kinds.{all_kinds, kind_seen};
ghost use Rattle.kt_decls_facts.specs.Facts.{Knows};
ghost use Rattle.kt_decls_inherited.specs.Sights as sights;
ghost use Rattle.kt_decls_rules.specs.ClassRules.{row_behind};
ghost use Rattle.kt_decls_rules.specs.Headers.{IsFine, top};
ghost use Rattle.kt_decls_rules.specs.Names.{are_free, taken_by};
ghost use Rattle.kt_decls_rules.specs.Tables.{row_count, scope_of};
ghost use Rattle.kt_tree.specs.Declarations.{DeclarationTree, declaration_tree};
ghost use Rattle.std.specs.List.{flat_map};
ghost use Rattle.std.specs.Prelude.{List, ◌≡◌, ◌<◌, ◌^◌, ◌↔◌, length, map, IfOk, IsTrue};

use crate::declarations::is_fine_declaration;
use crate::kinds::is_fine_kind;
pub use crate::names::take_names;
use kt_base::NoMemory;
use kt_decls_classes::kinds::Extension;
use kt_decls_facts::FileFacts;
use kt_tree::Declaration;
use kt_typed::DeclaredTypeParameter;
use std::alloc::Global;

/// Whether the header of a declaration at top level is well formed, but for those of its members. It is told whether
/// the names that it takes are free; the scope has its type parameters, the first of which has the row `first`, and
/// `row` is that of the class that it is, or of the next.
pub fn is_fine_top(
    alloc: Global,
    file: &[Declaration],
    places: &[usize],
    facts: &FileFacts,
    kinds: &[Extension],
    scope: &[DeclaredTypeParameter],
    row: u32,
    first: u32,
    is_free: bool,
    declaration: &Declaration,
) -> Result<bool, NoMemory>
    requires known { Knows (map declaration_tree file.now) facts.now }
    requires places { places.now ≡ sights.places (map declaration_tree file.now) }
    requires kinds { map kind_seen kinds.now ≡ all_kinds (map declaration_tree file.now) }
    requires few { length scope.now < 2 ^ 32 }
    ensures { IfOk result (λ fine. (before : List DeclarationTree) →
        scope.now ≡ scope_of before (declaration_tree declaration.now) → row ≡ row_behind before →
        first ≡ row_count before →
        is_free ≡ are_free (flat_map taken_by before) (taken_by (declaration_tree declaration.now)) →
        IsTrue fine
        ↔ IsFine (map declaration_tree file.now) (top before (declaration_tree declaration.now))) }
{
    let fine = is_fine_declaration(alloc, file, facts, scope, first, is_free, declaration)?;
    if fine {
        is_fine_kind(alloc, file, places, facts, kinds, scope, row, declaration)
    } else {
        Ok(false)
    }
}
