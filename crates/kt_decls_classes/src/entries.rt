//! The entries of an enum.

ghost use Rattle.kt_decls_classes.specs.Entries.{first_taken};
ghost use Rattle.kt_decls_classes.specs.Faults.{AreJudged};
ghost use Rattle.kt_decls_rules.specs.Headers.{headers_of_members};
ghost use Rattle.kt_decls_rules.specs.Names.{none_taken};
ghost use Rattle.kt_tree.specs.Declarations.{DeclarationTree, enum};
ghost use Rattle.std.specs.Prelude.{◌≡◌, IfOk, List};

use kt_base::{NoMemory, Pos};
use kt_decls_names::TakenNames;
use kt_tree::{EnumDeclaration, EnumEntry};
use std::alloc::Global;

/// The place of the first entry that has the name of one before it.
fn first_repeated(alloc: Global, entries: &[EnumEntry]) -> Result<Option<Pos>, NoMemory>
    ensures { IfOk result (λ place. place ≡ first_taken none_taken entries.now) }
{
    let mut taken = TakenNames::new(alloc);
    for entry in entries {
        if !taken.take_value(&entry.name)? {
            return Ok(Some(entry.at));
        }
    }
    Ok(None)
}

/// The place of the first entry of an enum that isn't well formed: it has the name of one before it.
pub fn judge_entries(alloc: Global, declared: &EnumDeclaration) -> Result<Option<Pos>, NoMemory>
    ensures { IfOk result (λ place. (file before : List DeclarationTree) →
        AreJudged file (headers_of_members before (enum declared.now)) place) }
{
    first_repeated(alloc, declared.entries.as_slice())
}
