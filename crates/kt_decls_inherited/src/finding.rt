//! The function of a class that has a name and a number of parameters.

ghost use Rattle.kt_decls_inherited.specs.Sights as spec;
ghost use Rattle.kt_decls_inherited.specs.Rows as rows;
ghost use Rattle.kt_decls_rules.specs.Members as rules;
ghost use Rattle.kt_decls_rules.specs.Members.{functions_of, is_open_function, method_of};
ghost use Rattle.kt_decls_rules.specs.Tables.{is_function};
ghost use Rattle.kt_decls_types.specs.Scopes.{class_named};
ghost use Rattle.kt_tree.specs.Declarations.{declaration_tree, function_tree, member_tree};
ghost use Rattle.kt_types_tree.specs.Hierarchy.{hierarchy_form};
ghost use Rattle.std.specs.List.{flat_map};
ghost use Rattle.std.specs.Option.{option_copied};
ghost use Rattle.std.specs.Prelude.{◌≡◌, find, map, option_map, slice_get, IfOk};

use crate::sights::{Sight, function_types};
use kt_base::NoMemory;
use kt_decls_hierarchy::drafts::{is_named, type_parameters};
use kt_decls_hierarchy::supertypes::scope_from;
use kt_decls_types::ClassNames;
use kt_tree::{ClassMember, Declaration, FunctionDeclaration};
use kt_types_tree::Hierarchy;
use sqlite_items::at;
use std::alloc::Global;

fn method_named<'a>(
    member: &'a ClassMember,
    name: &[u8],
    count: usize,
) -> Option<&'a FunctionDeclaration>
    ensures { option_map function_tree (option_copied result)
        ≡ find (is_function name.now count) (method_of (member_tree member.now)) }
{
    match member {
        ClassMember::Method(function) => {
            if is_named(function, name, count) {
                Some(function)
            } else {
                None
            }
        }
        ClassMember::Property(_) => None,
    }
}

/// The first function of this name with so many parameters among the members of a class.
fn found_method<'a>(
    members: &'a [ClassMember],
    name: &[u8],
    count: usize,
) -> Option<&'a FunctionDeclaration>
    ensures { option_map function_tree (option_copied result)
        ≡ find (is_function name.now count) (flat_map method_of (map member_tree members.now)) }
{
    for member in members {
        match method_named(member, name, count) {
            Some(function) => return Some(function),
            None => {}
        }
    }
    None
}

/// The first of several functions that has this name and so many parameters.
fn found_function<'a>(
    functions: &'a [FunctionDeclaration],
    name: &[u8],
    count: usize,
) -> Option<&'a FunctionDeclaration>
    ensures { option_map function_tree (option_copied result)
        ≡ find (is_function name.now count) (map function_tree functions.now) }
{
    for function in functions {
        if is_named(function, name, count) {
            return Some(function);
        }
    }
    None
}

/// The first function of a declaration that has this name and so many parameters.
pub fn function_named<'a>(
    declaration: &'a Declaration,
    name: &[u8],
    count: usize,
) -> Option<&'a FunctionDeclaration>
    ensures { option_map function_tree (option_copied result)
        ≡ find (is_function name.now count) (functions_of (declaration_tree declaration.now)) }
{
    match declaration {
        Declaration::Class(class) => found_method(class.members.as_slice(), name, count),
        Declaration::Interface(interface) => {
            found_function(interface.functions.as_slice(), name, count)
        }
        Declaration::Function(_) => None,
        Declaration::Enum(_) => None,
        Declaration::Constant(_) => None,
    }
}

fn is_interface(declaration: &Declaration) -> bool
    ensures { result ≡ rules.is_interface (declaration_tree declaration.now) }
{
    match declaration {
        Declaration::Interface(_) => true,
        Declaration::Class(_) => false,
        Declaration::Function(_) => false,
        Declaration::Enum(_) => false,
        Declaration::Constant(_) => false,
    }
}

fn is_open(in_interface: bool, function: &FunctionDeclaration) -> bool
    ensures { result ≡ is_open_function in_interface (function_tree function.now) }
{
    in_interface
        || function.modifiers.is_open
        || function.modifiers.is_abstract
        || function.modifiers.is_override
}

/// What is seen of a function from the class that declares it, whose first type parameter has this row.
fn own_sight(
    alloc: Global,
    classes: &ClassNames,
    first: u32,
    declaration: &Declaration,
    function: &FunctionDeclaration,
) -> Result<Sight, NoMemory>
    ensures { IfOk result (λ sight. spec.sight_form sight ≡ rows.own_in (class_named classes.now) first
        (declaration_tree declaration.now) (function_tree function.now)) }
{
    let scope = scope_from(alloc, first, type_parameters(declaration))?;
    let types = function_types(alloc, classes, scope.parameters.as_slice(), function)?;
    Ok(Sight {
        is_open: is_open(is_interface(declaration), function),
        has_body: function.body.is_some(),
        is_suspend: function.modifiers.is_suspend,
        types,
    })
}

/// What is seen of the function of this name with so many parameters that a declaration has.
fn declared_sight(
    alloc: Global,
    classes: &ClassNames,
    first: u32,
    declaration: &Declaration,
    name: &[u8],
    count: usize,
) -> Result<Option<Sight>, NoMemory>
    ensures { IfOk result (λ found. option_map spec.sight_form found
        ≡ rows.declared_in (class_named classes.now) first (declaration_tree declaration.now) name.now count) }
{
    match function_named(declaration, name, count) {
        Some(function) => Ok(Some(own_sight(alloc, classes, first, declaration, function)?)),
        None => Ok(None),
    }
}

/// The row of the first type parameter of the class in a row.
fn first_bound(h: &Hierarchy, row: u32) -> u32
    ensures { result ≡ rows.first_in (hierarchy_form h.now) row }
{
    match at(h.classes.as_slice(), row as usize) {
        Some(header) => header.first_bound,
        None => 0,
    }
}

fn place_in(places: &[usize], row: u32) -> Option<usize>
    ensures { result ≡ slice_get places.now row }
{
    match at(places, row as usize) {
        Some(place) => Some(*place),
        None => None,
    }
}

/// The declaration of the class in a row; a throwable has none.
pub fn declaration_in<'a>(
    file: &'a [Declaration],
    places: &[usize],
    row: u32,
) -> Option<&'a Declaration>
    ensures { option_map declaration_tree (option_copied result)
        ≡ rows.declaration_in (map declaration_tree file.now) places.now row }
{
    match place_in(places, row) {
        Some(place) => at(file, place),
        None => None,
    }
}

/// What is seen of the function of this name with so many parameters that the class in a row declares.
pub fn row_sight(
    alloc: Global,
    file: &[Declaration],
    places: &[usize],
    classes: &ClassNames,
    h: &Hierarchy,
    name: &[u8],
    count: usize,
    row: u32,
) -> Result<Option<Sight>, NoMemory>
    ensures { IfOk result (λ found. option_map spec.sight_form found ≡ rows.row_sight (class_named classes.now)
        (hierarchy_form h.now) (map declaration_tree file.now) places.now name.now count row) }
{
    match declaration_in(file, places, row) {
        Some(declaration) => {
            declared_sight(
                alloc,
                classes,
                first_bound(h, row),
                declaration,
                name,
                count,
            )
        }
        None => Ok(None),
    }
}
