//! The parameters, properties, entries and numbers of a class.

ghost use Rattle.kt_decls_headers.specs.Classes as spec;
ghost use Rattle.kt_decls_rules.specs.ClassRules as rules;
ghost use Rattle.kt_decls_types.specs.Scopes.{class_named};
ghost use Rattle.kt_tree.specs.Declarations.{constructor_parameter_tree, function_tree, maybe_super_arguments, member_tree, supertype_tree};
ghost use Rattle.kt_typed.specs.Headers.{class_parameter_form, property_form};
ghost use Rattle.kt_types_tree.specs.Hierarchy.{super_form};
ghost use Rattle.std.specs.List.{flat_map};
ghost use Rattle.std.specs.Prelude.{◌≡◌, ◌++◌, ◌<◌, ◌^◌, length, map, option_map, IfOk, OnOk};

use crate::functions::type_in;
use kt_base::{NoMemory, Pos};
use kt_decls_hierarchy::classes::sum_of;
use kt_decls_hierarchy::supertypes::supertype;
use kt_decls_types::ClassNames;
use kt_tree::{
    ClassMember, ConstructorParameter, ConstructorParameterKind, EnumEntry, FunctionDeclaration,
    SuperArguments, Supertype,
};
use kt_typed::{
    ClassParameter, DeclaredEntry, DeclaredProperty, DeclaredTypeParameter, MemberNumber,
};
use sqlite_items::Items;
use std::alloc::Global;

/// The place of the property that a parameter declares, where so many stand before.
fn property_at(kind: ConstructorParameterKind, place: u32) -> Option<u32>
    ensures { result ≡ spec.property_at kind place }
{
    match kind {
        ConstructorParameterKind::Plain => None,
        ConstructorParameterKind::Val => Some(place),
        ConstructorParameterKind::Var => Some(place),
    }
}

/// How many properties stand before the next parameter.
fn properties_behind(kind: ConstructorParameterKind, place: u32) -> Result<u32, NoMemory>
    ensures { IfOk result (λ next. next ≡ spec.properties_behind kind place) }
{
    match kind {
        ConstructorParameterKind::Plain => Ok(place),
        ConstructorParameterKind::Val => sum_of(place, 1),
        ConstructorParameterKind::Var => sum_of(place, 1),
    }
}

fn is_variable(kind: ConstructorParameterKind) -> bool
    ensures { result ≡ spec.is_variable kind }
{
    match kind {
        ConstructorParameterKind::Plain => false,
        ConstructorParameterKind::Val => false,
        ConstructorParameterKind::Var => true,
    }
}

fn class_parameter(
    alloc: Global,
    classes: &ClassNames,
    scope: &[DeclaredTypeParameter],
    place: u32,
    parameter: &ConstructorParameter,
) -> Result<ClassParameter, NoMemory>
    requires { length scope.now < 2 ^ 32 }
    ensures { IfOk result (λ p. class_parameter_form p ≡ spec.class_parameter (class_named classes.now) scope.now
        place (constructor_parameter_tree parameter.now)) }
{
    let name = parameter.name.clone()?;
    let annotation = type_in(alloc, classes, scope, &parameter.annotation)?;
    Ok(ClassParameter {
        name,
        annotation,
        property: property_at(parameter.kind, place),
    })
}

/// The parameters of a constructor.
pub fn class_parameters(
    alloc: Global,
    classes: &ClassNames,
    scope: &[DeclaredTypeParameter],
    parameters: &[ConstructorParameter],
) -> Result<Items<ClassParameter>, NoMemory>
    requires { length scope.now < 2 ^ 32 }
    ensures { IfOk result (λ ps. map class_parameter_form ps ≡ spec.class_parameters (class_named classes.now)
        scope.now 0 (map constructor_parameter_tree parameters.now)) }
{
    let mut done = Items::new(alloc);
    let mut place = 0;
    for parameter in parameters {
        done.push(class_parameter(alloc, classes, scope, place, parameter)?)?;
        place = properties_behind(parameter.kind, place)?;
    }
    Ok(done)
}

/// How many properties the parameters of a constructor declare.
pub fn property_count(parameters: &[ConstructorParameter]) -> Result<u32, NoMemory>
    ensures { IfOk result (λ count. count
        ≡ spec.property_count 0 (map constructor_parameter_tree parameters.now)) }
{
    let mut count = 0;
    for parameter in parameters {
        count = properties_behind(parameter.kind, count)?;
    }
    Ok(count)
}

fn declared_property(
    alloc: Global,
    classes: &ClassNames,
    scope: &[DeclaredTypeParameter],
    at: Pos,
    parameter: &ConstructorParameter,
) -> Result<DeclaredProperty, NoMemory>
    requires { length scope.now < 2 ^ 32 }
    ensures { IfOk result (λ p. property_form p ≡ spec.property_of (class_named classes.now) scope.now at
        (constructor_parameter_tree parameter.now)) }
{
    let name = parameter.name.clone()?;
    let annotation = type_in(alloc, classes, scope, &parameter.annotation)?;
    Ok(DeclaredProperty {
        at,
        name,
        is_variable: is_variable(parameter.kind),
        annotation,
    })
}

/// Puts the property that a parameter declares behind others, where it declares one.
fn push_parameter_property(
    alloc: Global,
    classes: &ClassNames,
    scope: &[DeclaredTypeParameter],
    at: Pos,
    parameter: &ConstructorParameter,
    done: &mut Items<DeclaredProperty>,
) -> Result<(), NoMemory>
    requires { length scope.now < 2 ^ 32 }
    ensures { OnOk result (map property_form done.new ≡ map property_form done.old
        ++ spec.parameter_property (class_named classes.now) scope.now at
        (constructor_parameter_tree parameter.now)) }
{
    if property_at(parameter.kind, 0).is_some() {
        done.push(declared_property(alloc, classes, scope, at, parameter)?)?;
    }
    Ok(())
}

/// Puts the properties of a constructor behind others.
pub fn push_parameter_properties(
    alloc: Global,
    classes: &ClassNames,
    scope: &[DeclaredTypeParameter],
    at: Pos,
    parameters: &[ConstructorParameter],
    done: &mut Items<DeclaredProperty>,
) -> Result<(), NoMemory>
    requires { length scope.now < 2 ^ 32 }
    ensures { OnOk result (map property_form done.new ≡ map property_form done.old
        ++ flat_map (spec.parameter_property (class_named classes.now) scope.now at)
        (map constructor_parameter_tree parameters.now)) }
{
    for parameter in parameters {
        push_parameter_property(alloc, classes, scope, at, parameter, done)?;
    }
    Ok(())
}

/// Puts a member of a class behind others, where it is a property.
fn push_member_property(
    alloc: Global,
    classes: &ClassNames,
    scope: &[DeclaredTypeParameter],
    member: &ClassMember,
    done: &mut Items<DeclaredProperty>,
) -> Result<(), NoMemory>
    requires { length scope.now < 2 ^ 32 }
    ensures { OnOk result (map property_form done.new ≡ map property_form done.old
        ++ spec.member_property (class_named classes.now) scope.now (member_tree member.now)) }
{
    match member {
        ClassMember::Method(_) => Ok(()),
        ClassMember::Property(property) => {
            let name = property.name.clone()?;
            let annotation = type_in(alloc, classes, scope, &property.annotation)?;
            done.push(DeclaredProperty {
                at: property.at,
                name,
                is_variable: property.is_variable,
                annotation,
            })?;
            Ok(())
        }
    }
}

/// Puts the properties among the members of a class behind others.
pub fn push_member_properties(
    alloc: Global,
    classes: &ClassNames,
    scope: &[DeclaredTypeParameter],
    members: &[ClassMember],
    done: &mut Items<DeclaredProperty>,
) -> Result<(), NoMemory>
    requires { length scope.now < 2 ^ 32 }
    ensures { OnOk result (map property_form done.new ≡ map property_form done.old
        ++ flat_map (spec.member_property (class_named classes.now) scope.now)
        (map member_tree members.now)) }
{
    for member in members {
        push_member_property(alloc, classes, scope, member, done)?;
    }
    Ok(())
}

/// The members of a class by their numbers, where so many properties stand before.
pub fn member_numbers(
    alloc: Global,
    properties: u32,
    members: &[ClassMember],
) -> Result<Items<MemberNumber>, NoMemory>
    ensures { IfOk result (λ numbers. numbers ≡ spec.numbers_from 0 properties (map member_tree members.now)) }
{
    let mut done = Items::new(alloc);
    let mut function = 0;
    let mut property = properties;
    for member in members {
        match member {
            ClassMember::Method(_) => {
                done.push(MemberNumber::Function(function))?;
                function = sum_of(function, 1)?;
            }
            ClassMember::Property(_) => {
                done.push(MemberNumber::Property(property))?;
                property = sum_of(property, 1)?;
            }
        }
    }
    Ok(done)
}

/// The functions of an interface by their numbers.
pub fn function_numbers(
    alloc: Global,
    functions: &[FunctionDeclaration],
) -> Result<Items<MemberNumber>, NoMemory>
    ensures { IfOk result (λ numbers. numbers ≡ spec.function_numbers 0 (map function_tree functions.now)) }
{
    let mut done = Items::new(alloc);
    let mut number = 0;
    for _function in functions {
        done.push(MemberNumber::Function(number))?;
        number = sum_of(number, 1)?;
    }
    Ok(done)
}

fn entry_of(entry: &EnumEntry) -> Result<DeclaredEntry, NoMemory>
    ensures { IfOk result (λ declared. declared ≡ spec.entry_of entry.now) }
{
    let name = entry.name.clone()?;
    Ok(DeclaredEntry { at: entry.at, name })
}

/// The entries of an enum.
pub fn entries(alloc: Global, written: &[EnumEntry]) -> Result<Items<DeclaredEntry>, NoMemory>
    ensures { IfOk result (λ entries. entries ≡ map spec.entry_of written.now) }
{
    let mut done = Items::new(alloc);
    for entry in written {
        done.push(entry_of(entry)?)?;
    }
    Ok(done)
}

fn are_parentheses(arguments: &Option<SuperArguments>) -> bool
    ensures { result ≡ rules.has_parentheses (maybe_super_arguments arguments.now) }
{
    match arguments {
        Some(_) => true,
        None => false,
    }
}

fn row_of(found: &Option<kt_types_tree::Supertype>) -> Option<u32>
    ensures { result ≡ spec.super_row (option_map super_form found.now) }
{
    match found {
        Some(found) => Some(found.class),
        None => None,
    }
}

/// The row of the class that the first supertype with parentheses names.
pub fn superclass(
    alloc: Global,
    classes: &ClassNames,
    scope: &[DeclaredTypeParameter],
    written: &[Supertype],
) -> Result<Option<u32>, NoMemory>
    requires { length scope.now < 2 ^ 32 }
    ensures { IfOk result (λ row. row
        ≡ spec.superclass_of (class_named classes.now) scope.now (map supertype_tree written.now)) }
{
    for each in written {
        if are_parentheses(&each.arguments) {
            let found = supertype(alloc, classes, scope, &each.parent)?;
            return Ok(row_of(&found));
        }
    }
    Ok(None)
}
