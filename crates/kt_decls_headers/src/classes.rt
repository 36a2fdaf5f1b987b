//! The headers of classes, interfaces and enums.

ghost use Rattle.kt_decls_headers.specs.Classes as spec;
ghost use Rattle.kt_decls_rules.specs.Tables as rules;
ghost use Rattle.kt_decls_types.specs.Scopes.{class_named};
ghost use Rattle.kt_tree.specs.Declarations.{class_tree, declaration_tree, interface_tree, constructor_parameter_tree, member_tree};
ghost use Rattle.kt_typed.specs.Headers.{class_form, property_form};
ghost use Rattle.kt_types_tree.specs.Hierarchy.{hierarchy_form};
ghost use Rattle.std.specs.List.{flat_map};
ghost use Rattle.std.specs.Prelude.{◌≡◌, ◌++◌, ◌<◌, ◌^◌, length, map, IfOk};

use crate::members::{class_functions, interface_functions};
use crate::parts::{
    class_parameters, entries, function_numbers, member_numbers, property_count,
    push_member_properties, push_parameter_properties, superclass,
};
use kt_base::NoMemory;
use kt_decls_facts::FileFacts;
use kt_decls_types::ClassNames;
use kt_tree::{ClassDeclaration, Declaration, EnumDeclaration, InterfaceDeclaration};
use kt_typed::{DeclaredClass, DeclaredProperty, DeclaredTypeParameter, MemberNumber};
use kt_types_tree::ClassKind;
use sqlite_items::Items;
use std::alloc::Global;

fn kind_of(is_data: bool) -> ClassKind
    ensures { result ≡ rules.class_kind is_data }
{
    if is_data {
        ClassKind::DataClass
    } else {
        ClassKind::Class
    }
}

/// The properties of a class: those of the constructor's parameters first, then those of the body.
fn class_properties(
    alloc: Global,
    classes: &ClassNames,
    scope: &[DeclaredTypeParameter],
    declared: &ClassDeclaration,
) -> Result<Items<DeclaredProperty>, NoMemory>
    requires { length scope.now < 2 ^ 32 }
    ensures { IfOk result (λ ps. map property_form ps
        ≡ flat_map (spec.parameter_property (class_named classes.now) scope.now declared.now.at)
        (map constructor_parameter_tree declared.now.parameters)
        ++ flat_map (spec.member_property (class_named classes.now) scope.now)
        (map member_tree declared.now.members)) }
{
    let mut done = Items::new(alloc);
    push_parameter_properties(
        alloc,
        classes,
        scope,
        declared.at,
        declared.parameters.as_slice(),
        &mut done,
    )?;
    push_member_properties(
        alloc,
        classes,
        scope,
        declared.members.as_slice(),
        &mut done,
    )?;
    Ok(done)
}

/// The members of a class by their numbers.
fn class_numbers(
    alloc: Global,
    declared: &ClassDeclaration,
) -> Result<Items<MemberNumber>, NoMemory>
    ensures { IfOk result (λ numbers. numbers ≡ spec.numbers_from 0
        (spec.property_count 0 (map constructor_parameter_tree declared.now.parameters))
        (map member_tree declared.now.members)) }
{
    let count = property_count(declared.parameters.as_slice())?;
    member_numbers(alloc, count, declared.members.as_slice())
}

/// The header of the class in a row, whose type parameters are these.
pub fn class_in(
    alloc: Global,
    file: &[Declaration],
    places: &[usize],
    facts: &FileFacts,
    row: u32,
    scope: Items<DeclaredTypeParameter>,
    declared: &ClassDeclaration,
) -> Result<DeclaredClass, NoMemory>
    requires { length scope < 2 ^ 32 }
    ensures { IfOk result (λ c. class_form c ≡ spec.class_in (class_named facts.now.classes)
        (hierarchy_form facts.now.hierarchy) (map declaration_tree file.now) places.now row scope
        (class_tree declared.now)) }
{
    let classes = &facts.classes;
    let types = scope.as_slice();
    let name = declared.name.clone()?;
    let parameters = class_parameters(alloc, classes, types, declared.parameters.as_slice())?;
    let properties = class_properties(alloc, classes, types, declared)?;
    let members = declared.members.as_slice();
    let functions = class_functions(alloc, file, places, facts, row, types, members)?;
    let numbers = class_numbers(alloc, declared)?;
    let superclass = superclass(alloc, classes, types, declared.supertypes.as_slice())?;
    Ok(DeclaredClass {
        at: declared.at,
        name,
        kind: kind_of(declared.modifiers.is_data),
        is_open: declared.modifiers.is_open || declared.modifiers.is_abstract,
        is_abstract: declared.modifiers.is_abstract,
        type_parameters: scope,
        parameters,
        properties,
        functions,
        entries: Items::new(alloc),
        members: numbers,
        superclass,
    })
}

/// The header of the interface in a row, whose type parameters are these.
pub fn interface_in(
    alloc: Global,
    file: &[Declaration],
    places: &[usize],
    facts: &FileFacts,
    row: u32,
    scope: Items<DeclaredTypeParameter>,
    declared: &InterfaceDeclaration,
) -> Result<DeclaredClass, NoMemory>
    requires { length scope < 2 ^ 32 }
    ensures { IfOk result (λ c. class_form c ≡ spec.interface_in (class_named facts.now.classes)
        (hierarchy_form facts.now.hierarchy) (map declaration_tree file.now) places.now row scope
        (interface_tree declared.now)) }
{
    let written = declared.functions.as_slice();
    let types = scope.as_slice();
    let functions = interface_functions(alloc, file, places, facts, row, types, written)?;
    let name = declared.name.clone()?;
    let numbers = function_numbers(alloc, written)?;
    Ok(DeclaredClass {
        at: declared.at,
        name,
        kind: ClassKind::Interface,
        is_open: true,
        is_abstract: true,
        type_parameters: scope,
        parameters: Items::new(alloc),
        properties: Items::new(alloc),
        functions,
        entries: Items::new(alloc),
        members: numbers,
        superclass: None,
    })
}

/// The header of an enum.
pub fn enum_in(alloc: Global, declared: &EnumDeclaration) -> Result<DeclaredClass, NoMemory>
    ensures { IfOk result (λ c. class_form c ≡ spec.enum_in declared.now) }
{
    let entries = entries(alloc, declared.entries.as_slice())?;
    let name = declared.name.clone()?;
    Ok(DeclaredClass {
        at: declared.at,
        name,
        kind: ClassKind::Enum,
        is_open: false,
        is_abstract: false,
        type_parameters: Items::new(alloc),
        parameters: Items::new(alloc),
        properties: Items::new(alloc),
        functions: Items::new(alloc),
        entries,
        members: Items::new(alloc),
        superclass: None,
    })
}
