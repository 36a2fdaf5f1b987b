//! The rules of classes and interfaces.

ghost use Rattle.kt_decls_classes.specs.Kinds.{all_kinds, kind_seen};
ghost use Rattle.kt_decls_facts.specs.Facts.{Knows};
ghost use Rattle.kt_decls_inherited.specs.Sights as sights;
ghost use Rattle.kt_decls_rules.specs.ClassRules.{IsFineClass, IsFineData, IsFineInterface};
ghost use Rattle.kt_decls_rules.specs.Members.{functions_of, is_some_body};
ghost use Rattle.kt_decls_tops.specs.Parts.{HasFineOwn, HasFineSupers, HasInterfacesAbove};
ghost use Rattle.kt_tree.specs.Declarations.{class, class_tree, declaration_tree, interface, interface_tree};
ghost use Rattle.std.specs.List.{list_all};
ghost use Rattle.std.specs.Prelude.{◌≡◌, ◌&&◌, ◌<◌, ◌^◌, ◌↔◌, length, map, false, true, IfOk, IsTrue};

use kt_base::NoMemory;
use kt_decls_classes::cycles::is_not_above_itself;
use kt_decls_classes::data::is_fine_data;
use kt_decls_classes::kinds::Extension;
use kt_decls_classes::names::have_own_bodies;
use kt_decls_classes::supertypes::{has_one_superclass, may_extend_all, may_extend_interfaces};
use kt_decls_facts::FileFacts;
use kt_decls_meeting::is_fine_from_above;
use kt_decls_members::are_new_parameters;
use kt_tree::{ClassDeclaration, Declaration, InterfaceDeclaration};
use kt_typed::DeclaredTypeParameter;
use std::alloc::Global;

fn both(a: bool, b: bool) -> bool
    ensures { result ≡ (a && b) }
{
    a && b
}

/// Whether a class may extend what it extends.
fn has_fine_supers(
    alloc: Global,
    file: &[Declaration],
    facts: &FileFacts,
    kinds: &[Extension],
    scope: &[DeclaredTypeParameter],
    row: u32,
    declared: &ClassDeclaration,
) -> Result<bool, NoMemory>
    requires known { Knows (map declaration_tree file.now) facts.now }
    requires kinds { map kind_seen kinds.now ≡ all_kinds (map declaration_tree file.now) }
    requires few { length scope.now < 2 ^ 32 }
    ensures { IfOk result (λ yes. IsTrue yes
        ↔ HasFineSupers (map declaration_tree file.now) row scope.now (class_tree declared.now)) }
{
    let written = declared.supertypes.as_slice();
    let fine = may_extend_all(alloc, file, facts, kinds, scope, written)?;
    let one = has_one_superclass(written);
    let ends = is_not_above_itself(alloc, file, facts, row)?;
    Ok(both(both(fine, one), ends))
}

/// Whether a data class obeys the rules of data classes; of another class nothing is asked.
fn is_fine_data_if(
    alloc: Global,
    file: &[Declaration],
    facts: &FileFacts,
    scope: &[DeclaredTypeParameter],
    declared: &ClassDeclaration,
) -> Result<bool, NoMemory>
    requires known { Knows (map declaration_tree file.now) facts.now }
    requires few { length scope.now < 2 ^ 32 }
    ensures { IfOk result (λ yes. IsTrue yes ↔ (declared.now.modifiers.is_data ≡ true →
        IsFineData (map declaration_tree file.now) scope.now (class_tree declared.now))) }
{
    let is_data = declared.modifiers.is_data;
    if is_data {
        is_fine_data(alloc, file, facts, scope, declared)
    } else {
        Ok(true)
    }
}

/// Whether a class that isn't abstract has a body for each function that it declares.
fn has_bodies(declared: &ClassDeclaration) -> bool
    ensures { IsTrue result ↔ (declared.now.modifiers.is_abstract ≡ false →
        list_all (λ f. is_some_body f.body) (functions_of (class (class_tree declared.now))) ≡ true) }
{
    let is_abstract = declared.modifiers.is_abstract;
    if is_abstract {
        true
    } else {
        have_own_bodies(declared.members.as_slice())
    }
}

/// Whether what a class declares itself breaks no rule of the class.
fn has_fine_own(
    alloc: Global,
    file: &[Declaration],
    places: &[usize],
    facts: &FileFacts,
    scope: &[DeclaredTypeParameter],
    row: u32,
    declared: &ClassDeclaration,
) -> Result<bool, NoMemory>
    requires known { Knows (map declaration_tree file.now) facts.now }
    requires places { places.now ≡ sights.places (map declaration_tree file.now) }
    requires few { length scope.now < 2 ^ 32 }
    ensures { IfOk result (λ yes. IsTrue yes
        ↔ HasFineOwn (map declaration_tree file.now) row scope.now (class_tree declared.now)) }
{
    let data = is_fine_data_if(alloc, file, facts, scope, declared)?;
    let bodies = has_bodies(declared);
    let fresh = are_new_parameters(file, places, facts, row, declared.parameters.as_slice());
    Ok(both(both(bodies, data), fresh))
}

/// Whether a class obeys the rules of classes, which is given twice: as a declaration too.
pub fn is_fine_class(
    alloc: Global,
    file: &[Declaration],
    places: &[usize],
    facts: &FileFacts,
    kinds: &[Extension],
    scope: &[DeclaredTypeParameter],
    row: u32,
    declaration: &Declaration,
    declared: &ClassDeclaration,
) -> Result<bool, NoMemory>
    requires known { Knows (map declaration_tree file.now) facts.now }
    requires places { places.now ≡ sights.places (map declaration_tree file.now) }
    requires kinds { map kind_seen kinds.now ≡ all_kinds (map declaration_tree file.now) }
    requires few { length scope.now < 2 ^ 32 }
    requires same { declaration_tree declaration.now ≡ class (class_tree declared.now) }
    ensures { IfOk result (λ yes. IsTrue yes
        ↔ IsFineClass (map declaration_tree file.now) row scope.now (class_tree declared.now)) }
{
    let supers = has_fine_supers(alloc, file, facts, kinds, scope, row, declared)?;
    if !supers {
        return Ok(false);
    }
    let own = has_fine_own(alloc, file, places, facts, scope, row, declared)?;
    if !own {
        return Ok(false);
    }
    let needs_bodies = !declared.modifiers.is_abstract;
    let is_data = declared.modifiers.is_data;
    is_fine_from_above(
        alloc,
        file,
        places,
        facts,
        declaration,
        needs_bodies,
        is_data,
        row,
    )
}

/// Whether an interface may extend what it extends.
fn has_interfaces_above(
    alloc: Global,
    file: &[Declaration],
    facts: &FileFacts,
    kinds: &[Extension],
    scope: &[DeclaredTypeParameter],
    row: u32,
    declared: &InterfaceDeclaration,
) -> Result<bool, NoMemory>
    requires known { Knows (map declaration_tree file.now) facts.now }
    requires kinds { map kind_seen kinds.now ≡ all_kinds (map declaration_tree file.now) }
    requires few { length scope.now < 2 ^ 32 }
    ensures { IfOk result (λ yes. IsTrue yes
        ↔ HasInterfacesAbove (map declaration_tree file.now) row scope.now (interface_tree declared.now)) }
{
    let written = declared.supertypes.as_slice();
    let fine = may_extend_interfaces(alloc, file, facts, kinds, scope, written)?;
    let ends = is_not_above_itself(alloc, file, facts, row)?;
    Ok(both(fine, ends))
}

/// Whether an interface obeys the rules of interfaces, which is given twice: as a declaration too.
pub fn is_fine_interface(
    alloc: Global,
    file: &[Declaration],
    places: &[usize],
    facts: &FileFacts,
    kinds: &[Extension],
    scope: &[DeclaredTypeParameter],
    row: u32,
    declaration: &Declaration,
    declared: &InterfaceDeclaration,
) -> Result<bool, NoMemory>
    requires known { Knows (map declaration_tree file.now) facts.now }
    requires places { places.now ≡ sights.places (map declaration_tree file.now) }
    requires kinds { map kind_seen kinds.now ≡ all_kinds (map declaration_tree file.now) }
    requires few { length scope.now < 2 ^ 32 }
    requires same { declaration_tree declaration.now ≡ interface (interface_tree declared.now) }
    ensures { IfOk result (λ yes. IsTrue yes
        ↔ IsFineInterface (map declaration_tree file.now) row scope.now (interface_tree declared.now)) }
{
    let supers = has_interfaces_above(alloc, file, facts, kinds, scope, row, declared)?;
    if supers {
        is_fine_from_above(alloc, file, places, facts, declaration, false, false, row)
    } else {
        Ok(false)
    }
}
