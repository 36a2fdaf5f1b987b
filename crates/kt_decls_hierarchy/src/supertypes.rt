//! The type parameters of a declaration, their bounds, and its supertypes.

ghost use Rattle.kt_decls_hierarchy.specs.Drafts as spec;
ghost use Rattle.kt_decls_rules.specs.Tables.{numbered, bound_meant};
ghost use Rattle.kt_decls_types.specs.References as references;
ghost use Rattle.kt_decls_types.specs.Answers.{Resolves};
ghost use Rattle.kt_decls_types.specs.Scopes.{class_named};
ghost use Rattle.kt_tree.specs.Declarations.{supertype_tree, type_parameter_tree};
ghost use Rattle.kt_tree.specs.Types.{maybe_type, type_tree};
ghost use Rattle.kt_types_tree.specs.Hierarchy.{SuperForm, super_form};
ghost use Rattle.kt_types_tree.specs.Types.{TypeForm, forms_of, shape_form, type_form};
ghost use Rattle.std.specs.List.{cons_option};
ghost use Rattle.std.specs.Prelude.{List, Option, ◌≡◌, ◌++◌, ◌+◌, ◌<◌, ◌≤◌, ◌^◌, length, map, option_map, IfOk, OnOk, Some};

use crate::classes::sum_of;
use kt_base::NoMemory;
use kt_decls_types::{ClassNames, Unresolved, resolved};
use kt_tree::{TypeParameter, TypeReference};
use kt_typed::DeclaredTypeParameter;
use kt_types_tree::{KtType, Supertype, TypeConstructor, TypeShape};
use sqlite_items::Items;
use std::alloc::Global;

/// The type parameters that a declaration has in scope.
#[derive(Drop)]
pub struct Scope {
    pub parameters: Items<DeclaredTypeParameter>,
    /// The row behind theirs.
    pub next: u32,
}

fn scope_of(parameters: Items<DeclaredTypeParameter>, next: u32) -> Scope
    requires { length parameters ≤ next }
    ensures parameters { result.parameters ≡ parameters }
    ensures next { result.next ≡ next }
    ensures few { length result.parameters < 2 ^ 32 }
{
    Scope { parameters, next }
}

/// The type parameters with their rows, of which the first is given.
pub fn scope_from(
    alloc: Global,
    first: u32,
    parameters: &[TypeParameter],
) -> Result<Scope, NoMemory>
    ensures parameters { IfOk result (λ scope.
        scope.parameters ≡ numbered first (map type_parameter_tree parameters.now)) }
    ensures next { IfOk result (λ scope. scope.next ≡ first + length parameters.now) }
    ensures few { IfOk result (λ scope. length scope.parameters < 2 ^ 32) }
{
    let mut done = Items::new(alloc);
    let mut next = first;
    for parameter in parameters {
        let name = parameter.name.clone()?;
        done.push(DeclaredTypeParameter { name, row: next })?;
        next = sum_of(next, 1)?;
    }
    Ok(scope_of(done, next))
}

/// The type that was found, and none where what is written breaks a rule.
fn or_none(meant: Result<KtType, Unresolved>) -> Result<Option<KtType>, NoMemory>
    ensures { (o : Option TypeForm) → Resolves meant o → IfOk result (λ t. option_map type_form t ≡ o) }
{
    match meant {
        Ok(meant) => Ok(Some(meant)),
        Err(Unresolved::Refused) => Ok(None),
        Err(Unresolved::NoMemory) => Err(NoMemory),
    }
}

/// What a type that is written means; none where it breaks a rule.
pub fn meaning(
    alloc: Global,
    classes: &ClassNames,
    scope: &[DeclaredTypeParameter],
    written: &TypeReference,
) -> Result<Option<KtType>, NoMemory>
    requires { length scope.now < 2 ^ 32 }
    ensures { IfOk result (λ t. option_map type_form t
        ≡ references.resolved (class_named classes.now) scope.now (type_tree written.now)) }
{
    or_none(resolved(alloc, classes, scope, written))
}

fn or_any(bound: Option<KtType>) -> KtType
    ensures { type_form result ≡ bound_meant (option_map type_form bound) }
{
    match bound {
        Some(bound) => bound,
        None => KtType::any(true),
    }
}

/// A bound, which is `Any?` where none is written, and where what is written breaks a rule.
fn bound_of(
    alloc: Global,
    classes: &ClassNames,
    scope: &[DeclaredTypeParameter],
    written: &Option<TypeReference>,
) -> Result<KtType, NoMemory>
    requires { length scope.now < 2 ^ 32 }
    ensures { IfOk result (λ t. type_form t
        ≡ spec.bound_in (class_named classes.now) scope.now (maybe_type written.now)) }
{
    match written {
        Some(written) => Ok(or_any(meaning(alloc, classes, scope, written)?)),
        None => Ok(KtType::any(true)),
    }
}

/// Puts the bounds of type parameters behind others.
pub fn push_bounds(
    alloc: Global,
    classes: &ClassNames,
    scope: &[DeclaredTypeParameter],
    parameters: &[TypeParameter],
    bounds: &mut Items<KtType>,
) -> Result<(), NoMemory>
    requires { length scope.now < 2 ^ 32 }
    ensures { OnOk result (map type_form bounds.new ≡ map type_form bounds.old
        ++ spec.bounds_in (class_named classes.now) scope.now (map type_parameter_tree parameters.now)) }
{
    for parameter in parameters {
        let bound = bound_of(alloc, classes, scope, &parameter.bound)?;
        bounds.push(bound)?;
    }
    Ok(())
}

/// The class that a type constructor is, with these arguments.
fn super_with(constructor: TypeConstructor, arguments: Items<KtType>) -> Option<Supertype>
    ensures { option_map super_form result ≡ spec.super_head constructor (forms_of (map type_form arguments)) }
{
    match constructor {
        TypeConstructor::Class(class) => Some(Supertype { class, arguments }),
        _ => None,
    }
}

/// The class that a type names, with its arguments.
fn super_of_shape(shape: TypeShape) -> Option<Supertype>
    ensures { option_map super_form result ≡ spec.super_shape (shape_form shape) }
{
    match shape {
        TypeShape::Of(constructor, arguments) => super_with(constructor, arguments),
        TypeShape::Nothing => None,
        TypeShape::Any => None,
        TypeShape::Parameter(_, _) => None,
    }
}

fn super_of_type(meant: Option<KtType>) -> Option<Supertype>
    ensures { option_map super_form result ≡ spec.super_of_type (option_map type_form meant) }
{
    match meant {
        Some(meant) => super_of_shape(meant.shape),
        None => None,
    }
}

/// The class that a written type names, with its arguments; none where it names none.
pub fn supertype(
    alloc: Global,
    classes: &ClassNames,
    scope: &[DeclaredTypeParameter],
    written: &TypeReference,
) -> Result<Option<Supertype>, NoMemory>
    requires { length scope.now < 2 ^ 32 }
    ensures { IfOk result (λ s. option_map super_form s
        ≡ spec.super_in (class_named classes.now) scope.now (type_tree written.now)) }
{
    Ok(super_of_type(meaning(alloc, classes, scope, written)?))
}

/// Puts the class that a written type names behind others, where it names one.
fn push_supertype(
    alloc: Global,
    classes: &ClassNames,
    scope: &[DeclaredTypeParameter],
    written: &TypeReference,
    done: &mut Items<Supertype>,
) -> Result<(), NoMemory>
    requires { length scope.now < 2 ^ 32 }
    ensures { OnOk result ((rest : List SuperForm) → map super_form done.new ++ rest ≡ map super_form done.old
        ++ cons_option (spec.super_in (class_named classes.now) scope.now (type_tree written.now)) rest) }
{
    match supertype(alloc, classes, scope, written)? {
        Some(found) => done.push(found)?,
        None => {}
    }
    Ok(())
}

/// The supertypes of an interface.
pub fn interface_supers(
    alloc: Global,
    classes: &ClassNames,
    scope: &[DeclaredTypeParameter],
    written: &[TypeReference],
) -> Result<Items<Supertype>, NoMemory>
    requires { length scope.now < 2 ^ 32 }
    ensures { IfOk result (λ supers. map super_form supers
        ≡ spec.supers_in (class_named classes.now) scope.now (map type_tree written.now)) }
{
    let mut done = Items::new(alloc);
    for each in written {
        push_supertype(alloc, classes, scope, each, &mut done)?;
    }
    Ok(done)
}

/// The supertypes of a class.
pub fn class_supers(
    alloc: Global,
    classes: &ClassNames,
    scope: &[DeclaredTypeParameter],
    written: &[kt_tree::Supertype],
) -> Result<Items<Supertype>, NoMemory>
    requires { length scope.now < 2 ^ 32 }
    ensures { IfOk result (λ supers. map super_form supers
        ≡ spec.supers_in (class_named classes.now) scope.now
        (map (λ s. s.parent) (map supertype_tree written.now))) }
{
    let mut done = Items::new(alloc);
    for each in written {
        push_supertype(alloc, classes, scope, &each.parent, &mut done)?;
    }
    Ok(done)
}
