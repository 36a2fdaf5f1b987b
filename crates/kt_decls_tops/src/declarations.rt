//! The rules that every declaration obeys.

ghost use Rattle.kt_decls_facts.specs.Facts.{Knows};
ghost use Rattle.kt_decls_rules.specs.Names.{are_free, taken_by};
ghost use Rattle.kt_decls_rules.specs.Rules.{IsFineDeclaration};
ghost use Rattle.kt_decls_rules.specs.Tables.{row_count, scope_of};
ghost use Rattle.kt_tree.specs.Declarations.{DeclarationTree, declaration_tree};
ghost use Rattle.std.specs.List.{flat_map};
ghost use Rattle.std.specs.Prelude.{List, ◌≡◌, ◌<◌, ◌^◌, ◌↔◌, length, map, IfOk, IsTrue};

use crate::meant::are_header_types_meant;
use crate::names::are_names_fine;
use kt_base::NoMemory;
use kt_decls_classes::cycles::do_bounds_end;
use kt_decls_facts::FileFacts;
use kt_decls_hierarchy::drafts::type_parameters;
use kt_tree::Declaration;
use kt_typed::DeclaredTypeParameter;
use std::alloc::Global;

/// Whether a declaration obeys the rules of all declarations, where it is told whether the names that it takes are
/// free. The scope has its type parameters, the first of which has the row that is given.
pub fn is_fine_declaration(
    alloc: Global,
    file: &[Declaration],
    facts: &FileFacts,
    scope: &[DeclaredTypeParameter],
    first: u32,
    is_free: bool,
    declaration: &Declaration,
) -> Result<bool, NoMemory>
    requires known { Knows (map declaration_tree file.now) facts.now }
    requires few { length scope.now < 2 ^ 32 }
    ensures { IfOk result (λ fine. (before : List DeclarationTree) →
        scope.now ≡ scope_of before (declaration_tree declaration.now) → first ≡ row_count before →
        is_free ≡ are_free (flat_map taken_by before) (taken_by (declaration_tree declaration.now)) →
        IsTrue fine ↔ IsFineDeclaration (map declaration_tree file.now) before (declaration_tree declaration.now)) }
{
    let named = are_names_fine(alloc, declaration, is_free)?;
    if !named {
        return Ok(false);
    }
    let meant = are_header_types_meant(alloc, file, facts, scope, declaration)?;
    if !meant {
        return Ok(false);
    }
    do_bounds_end(alloc, file, facts, first, type_parameters(declaration))
}
