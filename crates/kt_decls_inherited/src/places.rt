//! Where the declaration of a row stands in its file.

ghost use Rattle.kt_decls_inherited.specs.Sights as spec;
ghost use Rattle.kt_decls_rules.specs.Tables.{has_row};
ghost use Rattle.kt_tree.specs.Declarations.{declaration_tree};
ghost use Rattle.kt_types_builtins.specs.Throwables as builtin;
ghost use Rattle.std.specs.Prelude.{ℕ, List, ◌≡◌, ◌++◌, length, map, IfOk, OnOk};

use kt_base::NoMemory;
use kt_tree::Declaration;
use kt_types_builtins::BuiltInThrowable;
use kt_types_builtins::throwables::throwables;
use sqlite_items::Items;
use std::alloc::Global;

fn is_class(declaration: &Declaration) -> bool
    ensures { result ≡ has_row (declaration_tree declaration.now) }
{
    match declaration {
        Declaration::Class(_) => true,
        Declaration::Interface(_) => true,
        Declaration::Enum(_) => true,
        Declaration::Function(_) => false,
        Declaration::Constant(_) => false,
    }
}

fn push_place(
    declaration: &Declaration,
    place: usize,
    done: &mut Items<usize>,
) -> Result<(), NoMemory>
    ensures { OnOk result ((rest : List ℕ) → done.new ++ rest
        ≡ done.old ++ spec.places_if (has_row (declaration_tree declaration.now)) place rest) }
{
    if is_class(declaration) {
        done.push(place)?;
    }
    Ok(())
}

/// A throwable is declared behind all.
#[tactic(auto, unfolding(crate::specs::Sights::behind_all))]
fn place_behind(behind: usize, throwable: BuiltInThrowable) -> usize
    ensures { result ≡ spec.behind_all behind throwable }
{
    let _built_in = throwable;
    behind
}

fn throwable_places(alloc: Global, behind: usize) -> Result<Items<usize>, NoMemory>
    ensures { IfOk result (λ places. places ≡ map (spec.behind_all behind) builtin.throwables) }
{
    let mut done = Items::new(alloc);
    for throwable in throwables() {
        done.push(place_behind(behind, *throwable))?;
    }
    Ok(done)
}

/// For each row the place of its declaration; for a throwable, the place behind all.
pub fn row_places(alloc: Global, file: &[Declaration]) -> Result<Items<usize>, NoMemory>
    ensures { IfOk result (λ places. places ≡ spec.places (map declaration_tree file.now)) }
{
    let mut done = throwable_places(alloc, file.len())?;
    let mut place = 0;
    for declaration in file {
        push_place(declaration, place, &mut done)?;
        place += 1;
    }
    Ok(done)
}
