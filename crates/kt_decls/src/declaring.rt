//! The declarations of a file.

ghost use Rattle.kt_decls.specs.Refusals.{IsRefusal};
ghost use Rattle.kt_decls_classes.specs.Faults.{AreJudged};
ghost use Rattle.kt_decls_facts.specs.Facts.{Knows};
ghost use Rattle.kt_decls_headers.specs.Files.{headers_of};
ghost use Rattle.kt_decls_rules.specs.Headers as rules;
ghost use Rattle.kt_decls_rules.specs.Headers.{AreWellFormed};
ghost use Rattle.kt_decls_rules.specs.Tables as tables;
ghost use Rattle.kt_decls_types.specs.Scopes.{class_named};
ghost use Rattle.kt_tree.specs.Declarations.{DeclarationTree, declaration_tree, file_tree};
ghost use Rattle.kt_typed.specs.Headers.{headers_form};
ghost use Rattle.std.specs.Prelude.{◌≡◌, ℕ, List, Some, map, IfErr, IfOk, OnOk};

use kt_base::{FrontErr, Kind, Pos, Refusal};
use kt_decls_facts::{FileFacts, file_facts};
use kt_decls_headers::files::{Decls, headers};
use kt_decls_judged::judge_headers;
use kt_tree::{Declaration, FileTree};
use std::alloc::Global;

/// The refusal of a file at the first header that isn't well formed.
fn refused_at(at: Pos) -> FrontErr
    ensures { (file : List DeclarationTree) → AreJudged file (rules.headers file) (Some at) → IsRefusal file result }
{
    FrontErr::Refused(Refusal {
        kind: Kind::Typing,
        pos: at,
    })
}

/// The headers, where all are well formed, else the refusal at the first that isn't.
fn declared(
    alloc: Global,
    file: &[Declaration],
    facts: FileFacts,
    place: Option<Pos>,
) -> Result<Decls, FrontErr>
    requires known { Knows (map declaration_tree file.now) facts }
    requires judged { AreJudged (map declaration_tree file.now) (rules.headers (map declaration_tree file.now)) place }
    ensures headers { IfOk result (λ decls.
        headers_form decls.headers ≡ headers_of (map declaration_tree file.now)) }
    ensures names { IfOk result (λ decls. (x : List ℕ) → class_named decls.classes x
        ≡ tables.class_named (map declaration_tree file.now) x) }
    ensures well_formed { OnOk result (AreWellFormed (map declaration_tree file.now)) }
    ensures refused { IfErr result (λ e. IsRefusal (map declaration_tree file.now) e) }
{
    match place {
        None => Ok(headers(alloc, file, facts)?),
        Some(at) => Err(refused_at(at)),
    }
}

/// The declarations of a file. `Refused` (`Typing`) exactly where a header isn't well formed, at the first token of the
/// first declaration or member, in text order, whose header isn't.
pub fn declare(alloc: Global, tree: &FileTree) -> Result<Decls, FrontErr>
    ensures headers { IfOk result (λ decls. headers_form decls.headers ≡ headers_of (file_tree tree.now)) }
    ensures names { IfOk result (λ decls. (x : List ℕ) → class_named decls.classes x
        ≡ tables.class_named (file_tree tree.now) x) }
    ensures well_formed { OnOk result (AreWellFormed (file_tree tree.now)) }
    ensures refused { IfErr result (λ e. IsRefusal (file_tree tree.now) e) }
{
    let file = tree.declarations.as_slice();
    let facts = file_facts(alloc, file)?;
    let place = judge_headers(alloc, file, &facts)?;
    declared(alloc, file, facts, place)
}
