//! The first member of a declaration whose header isn't well formed.

ghost use Rattle.kt_decls_classes.specs.Faults.{AreJudged};
ghost use Rattle.kt_decls_facts.specs.Facts.{Knows};
ghost use Rattle.kt_decls_inherited.specs.Sights as sights;
ghost use Rattle.kt_decls_members.specs.Known.{IsTakenBy};
ghost use Rattle.kt_decls_names.specs.Taken.{is_taken};
ghost use Rattle.kt_decls_rules.specs.ClassRules.{row_behind};
ghost use Rattle.kt_decls_rules.specs.Headers.{IsFineMember, headers_of_members, member_place, members_from};
ghost use Rattle.kt_decls_rules.specs.Names.{Taken, taken_by_member};
ghost use Rattle.kt_decls_rules.specs.Tables.{scope_of};
ghost use Rattle.kt_tree.specs.Declarations as member;
ghost use Rattle.kt_tree.specs.Declarations.{DeclarationTree, class, class_tree, declaration_tree, function_tree, interface, interface_tree, member_tree, method, property_tree};
ghost use Rattle.std.specs.Prelude.{List, [], ◌∷◌, ◌++◌, ◌≡◌, ◌<◌, ◌^◌, ◌↔◌, length, map, IfOk, IsTrue, OnOk};

use crate::functions::is_fine_method;
use crate::properties::is_fine_property;
use crate::taking::{take_function, take_parameters, take_property};
use kt_base::{NoMemory, Pos};
use kt_decls_facts::FileFacts;
use kt_decls_names::TakenNames;
use kt_tree::{
    ClassDeclaration, ClassMember, Declaration, FunctionDeclaration, InterfaceDeclaration,
    PropertyDeclaration,
};
use kt_typed::DeclaredTypeParameter;
use std::alloc::Global;

/// Whether a function has a well formed header beside the names that are taken, of which its own is one from then on.
fn one_method(
    alloc: Global,
    file: &[Declaration],
    places: &[usize],
    facts: &FileFacts,
    scope: &[DeclaredTypeParameter],
    row: u32,
    taken: &mut TakenNames,
    function: &FunctionDeclaration,
) -> Result<bool, NoMemory>
    requires known { Knows (map declaration_tree file.now) facts.now }
    requires places { places.now ≡ sights.places (map declaration_tree file.now) }
    requires few { length scope.now < 2 ^ 32 }
    ensures fine { IfOk result (λ yes. (before : List DeclarationTree) (d : DeclarationTree) (earlier : List Taken) →
        row ≡ row_behind before → scope.now ≡ scope_of before d → IsTakenBy (is_taken taken.old) earlier →
        IsTrue yes ↔ IsFineMember (map declaration_tree file.now) before d earlier
        (method (function_tree function.now))) }
    ensures taken { OnOk result ((earlier : List Taken) → IsTakenBy (is_taken taken.old) earlier →
        IsTakenBy (is_taken taken.new) (earlier ++ taken_by_member (method (function_tree function.now)) ∷ [])) }
{
    let is_free = take_function(taken, function)?;
    is_fine_method(alloc, file, places, facts, scope, row, is_free, function)
}

/// The same of a property.
fn one_property(
    alloc: Global,
    file: &[Declaration],
    places: &[usize],
    facts: &FileFacts,
    scope: &[DeclaredTypeParameter],
    row: u32,
    taken: &mut TakenNames,
    property: &PropertyDeclaration,
) -> Result<bool, NoMemory>
    requires known { Knows (map declaration_tree file.now) facts.now }
    requires places { places.now ≡ sights.places (map declaration_tree file.now) }
    requires few { length scope.now < 2 ^ 32 }
    ensures fine { IfOk result (λ yes. (before : List DeclarationTree) (d : DeclarationTree) (earlier : List Taken) →
        row ≡ row_behind before → scope.now ≡ scope_of before d → IsTakenBy (is_taken taken.old) earlier →
        IsTrue yes ↔ IsFineMember (map declaration_tree file.now) before d earlier
        (member.property (property_tree property.now))) }
    ensures taken { OnOk result ((earlier : List Taken) → IsTakenBy (is_taken taken.old) earlier →
        IsTakenBy (is_taken taken.new)
        (earlier ++ taken_by_member (member.property (property_tree property.now)) ∷ [])) }
{
    let is_free = take_property(taken, &property.name)?;
    is_fine_property(alloc, file, places, facts, scope, row, is_free, property)
}

/// The same of a member of a class.
fn one_member(
    alloc: Global,
    file: &[Declaration],
    places: &[usize],
    facts: &FileFacts,
    scope: &[DeclaredTypeParameter],
    row: u32,
    taken: &mut TakenNames,
    member: &ClassMember,
) -> Result<bool, NoMemory>
    requires known { Knows (map declaration_tree file.now) facts.now }
    requires places { places.now ≡ sights.places (map declaration_tree file.now) }
    requires few { length scope.now < 2 ^ 32 }
    ensures fine { IfOk result (λ yes. (before : List DeclarationTree) (d : DeclarationTree) (earlier : List Taken) →
        row ≡ row_behind before → scope.now ≡ scope_of before d → IsTakenBy (is_taken taken.old) earlier →
        IsTrue yes ↔ IsFineMember (map declaration_tree file.now) before d earlier (member_tree member.now)) }
    ensures taken { OnOk result ((earlier : List Taken) → IsTakenBy (is_taken taken.old) earlier →
        IsTakenBy (is_taken taken.new) (earlier ++ taken_by_member (member_tree member.now) ∷ [])) }
{
    match member {
        ClassMember::Method(function) => one_method(
            alloc, file, places, facts, scope, row, taken, function,
        ),
        ClassMember::Property(property) => one_property(
            alloc, file, places, facts, scope, row, taken, property,
        ),
    }
}

fn place_of(member: &ClassMember) -> Pos
    ensures { result ≡ member_place (member_tree member.now) }
{
    match member {
        ClassMember::Method(function) => function.at,
        ClassMember::Property(property) => property.at,
    }
}

/// The place of the first of these members whose header isn't well formed, beside the names that are taken.
fn judge_members(
    alloc: Global,
    file: &[Declaration],
    places: &[usize],
    facts: &FileFacts,
    scope: &[DeclaredTypeParameter],
    row: u32,
    taken: &mut TakenNames,
    members: &[ClassMember],
) -> Result<Option<Pos>, NoMemory>
    requires known { Knows (map declaration_tree file.now) facts.now }
    requires places { places.now ≡ sights.places (map declaration_tree file.now) }
    requires few { length scope.now < 2 ^ 32 }
    ensures { IfOk result (λ place. (before : List DeclarationTree) (d : DeclarationTree) (earlier : List Taken) →
        row ≡ row_behind before → scope.now ≡ scope_of before d → IsTakenBy (is_taken taken.old) earlier →
        AreJudged (map declaration_tree file.now)
        (members_from before d earlier (map member_tree members.now)) place) }
{
    for member in members {
        let fine = one_member(alloc, file, places, facts, scope, row, taken, member)?;
        if !fine {
            return Ok(Some(place_of(member)));
        }
    }
    Ok(None)
}

/// The place of the first of these functions whose header isn't well formed, beside the names that are taken.
fn judge_functions(
    alloc: Global,
    file: &[Declaration],
    places: &[usize],
    facts: &FileFacts,
    scope: &[DeclaredTypeParameter],
    row: u32,
    taken: &mut TakenNames,
    functions: &[FunctionDeclaration],
) -> Result<Option<Pos>, NoMemory>
    requires known { Knows (map declaration_tree file.now) facts.now }
    requires places { places.now ≡ sights.places (map declaration_tree file.now) }
    requires few { length scope.now < 2 ^ 32 }
    ensures { IfOk result (λ place. (before : List DeclarationTree) (d : DeclarationTree) (earlier : List Taken) →
        row ≡ row_behind before → scope.now ≡ scope_of before d → IsTakenBy (is_taken taken.old) earlier →
        AreJudged (map declaration_tree file.now)
        (members_from before d earlier (map method (map function_tree functions.now))) place) }
{
    for function in functions {
        let fine = one_method(alloc, file, places, facts, scope, row, taken, function)?;
        if !fine {
            return Ok(Some(function.at));
        }
    }
    Ok(None)
}

/// The place of the first member of a class whose header isn't well formed. The scope has the type parameters of the
/// class; the row is its own.
pub fn judge_class_members(
    alloc: Global,
    file: &[Declaration],
    places: &[usize],
    facts: &FileFacts,
    scope: &[DeclaredTypeParameter],
    row: u32,
    declared: &ClassDeclaration,
) -> Result<Option<Pos>, NoMemory>
    requires known { Knows (map declaration_tree file.now) facts.now }
    requires places { places.now ≡ sights.places (map declaration_tree file.now) }
    requires few { length scope.now < 2 ^ 32 }
    ensures { IfOk result (λ place. (before : List DeclarationTree) →
        row ≡ row_behind before → scope.now ≡ scope_of before (class (class_tree declared.now)) →
        AreJudged (map declaration_tree file.now)
        (headers_of_members before (class (class_tree declared.now))) place) }
{
    let mut taken = TakenNames::new(alloc);
    take_parameters(&mut taken, declared.parameters.as_slice())?;
    judge_members(
        alloc,
        file,
        places,
        facts,
        scope,
        row,
        &mut taken,
        declared.members.as_slice(),
    )
}

/// The place of the first function of an interface whose header isn't well formed.
pub fn judge_interface_functions(
    alloc: Global,
    file: &[Declaration],
    places: &[usize],
    facts: &FileFacts,
    scope: &[DeclaredTypeParameter],
    row: u32,
    declared: &InterfaceDeclaration,
) -> Result<Option<Pos>, NoMemory>
    requires known { Knows (map declaration_tree file.now) facts.now }
    requires places { places.now ≡ sights.places (map declaration_tree file.now) }
    requires few { length scope.now < 2 ^ 32 }
    ensures { IfOk result (λ place. (before : List DeclarationTree) →
        row ≡ row_behind before → scope.now ≡ scope_of before (interface (interface_tree declared.now)) →
        AreJudged (map declaration_tree file.now)
        (headers_of_members before (interface (interface_tree declared.now))) place) }
{
    let mut taken = TakenNames::new(alloc);
    judge_functions(
        alloc,
        file,
        places,
        facts,
        scope,
        row,
        &mut taken,
        declared.functions.as_slice(),
    )
}
