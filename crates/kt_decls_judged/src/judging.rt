//! The first header of a file that isn't well formed, in text order.

ghost use Rattle.kt_decls_classes.specs.Faults.{AreJudged};
ghost use Rattle.kt_decls_classes.specs.Kinds.{all_kinds, kind_seen};
ghost use Rattle.kt_decls_facts.specs.Facts.{Knows};
ghost use Rattle.kt_decls_inherited.specs.Sights as sights;
ghost use Rattle.kt_decls_judged.specs.Walk.{headers_of};
ghost use Rattle.kt_decls_members.specs.Known.{IsTakenBy};
ghost use Rattle.kt_decls_names.specs.Taken.{is_taken};
ghost use Rattle.kt_decls_rules.specs.ClassRules.{row_behind};
ghost use Rattle.kt_decls_rules.specs.Headers.{declaration_place, headers, headers_of_members};
ghost use Rattle.kt_decls_rules.specs.Names.{taken_by};
ghost use Rattle.kt_decls_rules.specs.Tables.{class_entry, row_count, scope_of, type_parameters_of};
ghost use Rattle.kt_tree.specs.Declarations.{DeclarationTree, declaration_tree};
ghost use Rattle.std.specs.List.{flat_map};
ghost use Rattle.std.specs.Prelude.{List, ◌++◌, ◌+◌, ◌≡◌, ◌<◌, ◌^◌, length, map, IfOk, OnOk};

use kt_base::{NoMemory, Pos};
use kt_decls_classes::entries::judge_entries;
use kt_decls_classes::kinds::{Extension, kinds};
use kt_decls_facts::FileFacts;
use kt_decls_hierarchy::classes::{sum_of, throwable_count};
use kt_decls_hierarchy::drafts::type_parameters;
use kt_decls_hierarchy::supertypes::scope_from;
use kt_decls_inherited::row_places;
use kt_decls_members::{judge_class_members, judge_interface_functions};
use kt_decls_names::TakenNames;
use kt_decls_tops::{is_fine_top, take_names};
use kt_tree::Declaration;
use kt_typed::DeclaredTypeParameter;
use std::alloc::Global;

/// The place of the first token.
fn place_of(declaration: &Declaration) -> Pos
    ensures { result ≡ declaration_place (declaration_tree declaration.now) }
{
    match declaration {
        Declaration::Function(function) => function.at,
        Declaration::Class(class) => class.at,
        Declaration::Interface(interface) => interface.at,
        Declaration::Enum(declared) => declared.at,
        Declaration::Constant(constant) => constant.at,
    }
}

/// The row behind that of a declaration, where it is a class.
fn row_after(row: u32, declaration: &Declaration) -> Result<u32, NoMemory>
    ensures { IfOk result (λ next. next ≡ row + length (class_entry (declaration_tree declaration.now))) }
{
    match declaration {
        Declaration::Class(_) => sum_of(row, 1),
        Declaration::Interface(_) => sum_of(row, 1),
        Declaration::Enum(_) => sum_of(row, 1),
        Declaration::Function(_) => Ok(row),
        Declaration::Constant(_) => Ok(row),
    }
}

/// The place of the first member of a declaration whose header isn't well formed.
fn judge_members_of(
    alloc: Global,
    file: &[Declaration],
    places: &[usize],
    facts: &FileFacts,
    scope: &[DeclaredTypeParameter],
    row: u32,
    declaration: &Declaration,
) -> Result<Option<Pos>, NoMemory>
    requires known { Knows (map declaration_tree file.now) facts.now }
    requires places { places.now ≡ sights.places (map declaration_tree file.now) }
    requires few { length scope.now < 2 ^ 32 }
    ensures { IfOk result (λ place. (before : List DeclarationTree) →
        row ≡ row_behind before → scope.now ≡ scope_of before (declaration_tree declaration.now) →
        AreJudged (map declaration_tree file.now)
        (headers_of_members before (declaration_tree declaration.now)) place) }
{
    match declaration {
        Declaration::Class(class) => {
            judge_class_members(alloc, file, places, facts, scope, row, class)
        }
        Declaration::Interface(interface) => {
            judge_interface_functions(alloc, file, places, facts, scope, row, interface)
        }
        Declaration::Enum(declared) => judge_entries(alloc, declared),
        Declaration::Function(_) => Ok(None),
        Declaration::Constant(_) => Ok(None),
    }
}

/// The place of the first header of a declaration that isn't well formed, those of its members among them. The scope
/// has its type parameters.
fn judge_scoped(
    alloc: Global,
    file: &[Declaration],
    places: &[usize],
    facts: &FileFacts,
    kinds: &[Extension],
    scope: &[DeclaredTypeParameter],
    row: u32,
    first: u32,
    taken: &mut TakenNames,
    declaration: &Declaration,
) -> Result<Option<Pos>, NoMemory>
    requires known { Knows (map declaration_tree file.now) facts.now }
    requires places { places.now ≡ sights.places (map declaration_tree file.now) }
    requires kinds { map kind_seen kinds.now ≡ all_kinds (map declaration_tree file.now) }
    requires few { length scope.now < 2 ^ 32 }
    ensures judged { IfOk result (λ place. (before : List DeclarationTree) →
        scope.now ≡ scope_of before (declaration_tree declaration.now) → row ≡ row_behind before →
        first ≡ row_count before → IsTakenBy (is_taken taken.old) (flat_map taken_by before) →
        AreJudged (map declaration_tree file.now) (headers_of before (declaration_tree declaration.now)) place) }
    ensures taken { OnOk result ((before : List DeclarationTree) →
        IsTakenBy (is_taken taken.old) (flat_map taken_by before) →
        IsTakenBy (is_taken taken.new) (flat_map taken_by before ++ taken_by (declaration_tree declaration.now))) }
{
    let is_free = take_names(taken, declaration)?;
    let fine = is_fine_top(
        alloc,
        file,
        places,
        facts,
        kinds,
        scope,
        row,
        first,
        is_free,
        declaration,
    )?;
    if fine {
        judge_members_of(alloc, file, places, facts, scope, row, declaration)
    } else {
        Ok(Some(place_of(declaration)))
    }
}

/// The same; `row` is that of the class that the declaration is, or of the next, and `first` that of its first type
/// parameter. With it the row behind its type parameters.
fn judge_declaration(
    alloc: Global,
    file: &[Declaration],
    places: &[usize],
    facts: &FileFacts,
    kinds: &[Extension],
    row: u32,
    first: u32,
    taken: &mut TakenNames,
    declaration: &Declaration,
) -> Result<(Option<Pos>, u32), NoMemory>
    requires known { Knows (map declaration_tree file.now) facts.now }
    requires places { places.now ≡ sights.places (map declaration_tree file.now) }
    requires kinds { map kind_seen kinds.now ≡ all_kinds (map declaration_tree file.now) }
    ensures judged { IfOk result (λ told. (before : List DeclarationTree) →
        row ≡ row_behind before → first ≡ row_count before →
        IsTakenBy (is_taken taken.old) (flat_map taken_by before) →
        AreJudged (map declaration_tree file.now) (headers_of before (declaration_tree declaration.now)) told.0) }
    ensures next { IfOk result (λ told. told.1
        ≡ first + length (type_parameters_of (declaration_tree declaration.now))) }
    ensures taken { OnOk result ((before : List DeclarationTree) →
        IsTakenBy (is_taken taken.old) (flat_map taken_by before) →
        IsTakenBy (is_taken taken.new) (flat_map taken_by before ++ taken_by (declaration_tree declaration.now))) }
{
    let scope = scope_from(alloc, first, type_parameters(declaration))?;
    let place = judge_scoped(
        alloc,
        file,
        places,
        facts,
        kinds,
        scope.parameters.as_slice(),
        row,
        first,
        taken,
        declaration,
    )?;
    Ok((place, scope.next))
}

/// The place of the first header that isn't well formed, where it is known how each row may be extended.
fn judge_declarations(
    alloc: Global,
    file: &[Declaration],
    places: &[usize],
    facts: &FileFacts,
    kinds: &[Extension],
) -> Result<Option<Pos>, NoMemory>
    requires known { Knows (map declaration_tree file.now) facts.now }
    requires places { places.now ≡ sights.places (map declaration_tree file.now) }
    requires kinds { map kind_seen kinds.now ≡ all_kinds (map declaration_tree file.now) }
    ensures { IfOk result (λ place.
        AreJudged (map declaration_tree file.now) (headers (map declaration_tree file.now)) place) }
{
    let mut taken = TakenNames::new(alloc);
    let mut row = throwable_count()?;
    let mut first = 0;
    for declaration in file {
        let told = judge_declaration(
            alloc,
            file,
            places,
            facts,
            kinds,
            row,
            first,
            &mut taken,
            declaration,
        )?;
        let failed = told.0.is_some();
        if failed {
            return Ok(told.0);
        }
        row = row_after(row, declaration)?;
        first = told.1;
    }
    Ok(None)
}

/// The place of the first token of the first header of a file, members included, that isn't well formed; none where all
/// are. The facts are those of the file.
pub fn judge_headers(
    alloc: Global,
    file: &[Declaration],
    facts: &FileFacts,
) -> Result<Option<Pos>, NoMemory>
    requires known { Knows (map declaration_tree file.now) facts.now }
    ensures { IfOk result (λ place.
        AreJudged (map declaration_tree file.now) (headers (map declaration_tree file.now)) place) }
{
    let places = row_places(alloc, file)?;
    let kinds = kinds(alloc, file)?;
    judge_declarations(alloc, file, places.as_slice(), facts, kinds.as_slice())
}
