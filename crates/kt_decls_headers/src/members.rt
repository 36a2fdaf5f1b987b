//! The functions of classes and interfaces.

ghost use Rattle.kt_decls_headers.specs.Classes as spec;
ghost use Rattle.kt_decls_rules.specs.Members.{is_open_function, method_of};
ghost use Rattle.kt_decls_types.specs.Scopes.{class_named};
ghost use Rattle.kt_tree.specs.Declarations.{declaration_tree, function_tree, member_tree};
ghost use Rattle.kt_typed.specs.Headers.{function_form};
ghost use Rattle.kt_types_tree.specs.Hierarchy.{hierarchy_form};
ghost use Rattle.std.specs.List.{flat_map};
ghost use Rattle.std.specs.Prelude.{◌≡◌, ◌++◌, ◌<◌, ◌^◌, length, map, false, true, IfOk, OnOk};

use crate::functions::function_in;
use crate::overridden::overridden_by;
use kt_base::NoMemory;
use kt_decls_facts::FileFacts;
use kt_tree::{ClassMember, Declaration, FunctionDeclaration};
use kt_typed::{DeclaredFunction, DeclaredTypeParameter};
use sqlite_items::Items;
use std::alloc::Global;

fn is_open(in_interface: bool, function: &FunctionDeclaration) -> bool
    ensures { result ≡ is_open_function in_interface (function_tree function.now) }
{
    in_interface
        || function.modifiers.is_open
        || function.modifiers.is_abstract
        || function.modifiers.is_override
}

/// The header of a function of the class in a row.
fn method_in(
    alloc: Global,
    file: &[Declaration],
    places: &[usize],
    facts: &FileFacts,
    row: u32,
    scope: &[DeclaredTypeParameter],
    in_interface: bool,
    function: &FunctionDeclaration,
) -> Result<DeclaredFunction, NoMemory>
    requires { length scope.now < 2 ^ 32 }
    ensures { IfOk result (λ f. function_form f ≡ spec.method_in (class_named facts.now.classes)
        (hierarchy_form facts.now.hierarchy) (map declaration_tree file.now) places.now row scope.now in_interface
        (function_tree function.now)) }
{
    let overrides = overridden_by(file, places, &facts.hierarchy, row, function)?;
    let open = is_open(in_interface, function);
    let own = Items::new(alloc);
    function_in(alloc, &facts.classes, scope, own, open, overrides, function)
}

/// Puts a member of a class behind others, where it is a function.
fn push_member(
    alloc: Global,
    file: &[Declaration],
    places: &[usize],
    facts: &FileFacts,
    row: u32,
    scope: &[DeclaredTypeParameter],
    member: &ClassMember,
    done: &mut Items<DeclaredFunction>,
) -> Result<(), NoMemory>
    requires { length scope.now < 2 ^ 32 }
    ensures { OnOk result (map function_form done.new ≡ map function_form done.old
        ++ map (spec.method_in (class_named facts.now.classes) (hierarchy_form facts.now.hierarchy)
        (map declaration_tree file.now) places.now row scope.now false) (method_of (member_tree member.now))) }
{
    match member {
        ClassMember::Method(function) => {
            let made = method_in(alloc, file, places, facts, row, scope, false, function)?;
            done.push(made)?;
            Ok(())
        }
        ClassMember::Property(_) => Ok(()),
    }
}

/// The functions of the class in a row.
pub fn class_functions(
    alloc: Global,
    file: &[Declaration],
    places: &[usize],
    facts: &FileFacts,
    row: u32,
    scope: &[DeclaredTypeParameter],
    members: &[ClassMember],
) -> Result<Items<DeclaredFunction>, NoMemory>
    requires { length scope.now < 2 ^ 32 }
    ensures { IfOk result (λ fs. map function_form fs ≡ map (spec.method_in (class_named facts.now.classes)
        (hierarchy_form facts.now.hierarchy) (map declaration_tree file.now) places.now row scope.now false)
        (flat_map method_of (map member_tree members.now))) }
{
    let mut done = Items::new(alloc);
    for member in members {
        push_member(alloc, file, places, facts, row, scope, member, &mut done)?;
    }
    Ok(done)
}

/// The functions of the interface in a row.
pub fn interface_functions(
    alloc: Global,
    file: &[Declaration],
    places: &[usize],
    facts: &FileFacts,
    row: u32,
    scope: &[DeclaredTypeParameter],
    functions: &[FunctionDeclaration],
) -> Result<Items<DeclaredFunction>, NoMemory>
    requires { length scope.now < 2 ^ 32 }
    ensures { IfOk result (λ fs. map function_form fs ≡ map (spec.method_in (class_named facts.now.classes)
        (hierarchy_form facts.now.hierarchy) (map declaration_tree file.now) places.now row scope.now true)
        (map function_tree functions.now)) }
{
    let mut done = Items::new(alloc);
    for function in functions {
        let made = method_in(alloc, file, places, facts, row, scope, true, function)?;
        done.push(made)?;
    }
    Ok(done)
}
