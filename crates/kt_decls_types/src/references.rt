//! Types as they are written, resolved.

ghost use Rattle.kt_decls_types.specs.Answers.{Answers, Resolves};
ghost use Rattle.kt_decls_types.specs.References as spec;
ghost use Rattle.kt_decls_types.specs.Scopes.{class_named};
ghost use Rattle.kt_tree.specs.Types.{type_tree, types_of};
ghost use Rattle.kt_types_builtins.specs.Throwables.{throwable_of_name};
ghost use Rattle.kt_types_tree.specs.Types.{ShapeForm, type_form, typed};
ghost use Rattle.kt_decls_types.specs.declared.names.Meaning.TheVariants.{Taking};
ghost use Rattle.std.specs.Prelude.{◌≡◌, ◌<◌, ◌^◌, length, [], map, false};

use crate::names::{Meaning, meaning_of_built_in};
use crate::scopes::{ClassNames, Unresolved, parameter_named};
use kt_base::Name;
use kt_tree::TypeReference;
use kt_typed::DeclaredTypeParameter;
use kt_types_builtins::{BuiltInThrowable, BuiltInType};
use kt_types_tree::{KtType, TypeConstructor};
use sqlite_items::Items;
use std::alloc::Global;

/// What the name of a throwable or of a class stands for.
fn meaning_of_class(classes: &ClassNames, name: &Name) -> Option<Meaning>
    ensures { result ≡ spec.meaning_of_class (throwable_of_name name.now) (class_named classes.now name.now) }
{
    match BuiltInThrowable::of_name(name.as_bytes()) {
        Some(throwable) => Some(Meaning::Taking(TypeConstructor::Class(throwable.row()), 0)),
        None => match classes.class_named(name) {
            Some(class) => Some(Meaning::Taking(
                TypeConstructor::Class(class.row),
                class.parameters,
            )),
            None => None,
        },
    }
}

/// What a name stands for: a type parameter hides every other name.
fn meaning_of(
    classes: &ClassNames,
    parameters: &[DeclaredTypeParameter],
    name: &Name,
) -> Option<Meaning>
    requires { length parameters.now < 2 ^ 32 }
    ensures { result ≡ spec.meaning_of (class_named classes.now) parameters.now name.now }
{
    match parameter_named(parameters, name) {
        Some(parameter) => Some(Meaning::Parameter(parameter.row, parameter.place)),
        None => match BuiltInType::of_name(name.as_bytes()) {
            Some(built_in) => Some(meaning_of_built_in(built_in)),
            None => meaning_of_class(classes, name),
        },
    }
}

/// Whether each of them has `?`.
fn are_nullable(types: &[KtType]) -> bool
    ensures { result ≡ spec.all_nullable (map type_form types.now) }
{
    for each in types {
        if !each.nullable {
            return false;
        }
    }
    true
}

/// Whether it may have these arguments.
fn takes(constructor: TypeConstructor, arguments: &[KtType]) -> bool
    ensures { result ≡ spec.takes constructor (map type_form arguments.now) }
{
    match constructor {
        TypeConstructor::Array => are_nullable(arguments),
        _ => true,
    }
}

/// The type, where it has no arguments.
fn without_arguments(whole: KtType, arguments: &[KtType]) -> Result<KtType, Unresolved>
    ensures { (shape : ShapeForm) → type_form whole ≡ typed false shape →
        Resolves result (spec.without_arguments shape (map type_form arguments.now)) }
{
    match arguments {
        [] => Ok(whole),
        _ => Err(Unresolved::Refused),
    }
}

/// A name, with the arguments that are written behind it.
fn applied(meaning: Meaning, arguments: Items<KtType>) -> Result<KtType, Unresolved>
    ensures { Resolves result (spec.applied meaning (map type_form arguments)) }
{
    match meaning {
        Meaning::Nothing => without_arguments(KtType::nothing(false), arguments.as_slice()),
        Meaning::Any => without_arguments(KtType::any(false), arguments.as_slice()),
        Meaning::Parameter(row, place) => {
            without_arguments(KtType::parameter(false, row, place), arguments.as_slice())
        }
        Meaning::Taking(constructor, count) => taking(constructor, count, arguments),
    }
}

/// What is given so many arguments, with them.
fn taking(
    constructor: TypeConstructor,
    count: u32,
    arguments: Items<KtType>,
) -> Result<KtType, Unresolved>
    ensures { Resolves result (spec.applied (Taking constructor count) (map type_form arguments)) }
{
    if arguments.len() == count as usize {
        if takes(constructor, arguments.as_slice()) {
            Ok(KtType::of(false, constructor, arguments))
        } else {
            Err(Unresolved::Refused)
        }
    } else {
        Err(Unresolved::Refused)
    }
}

/// A function type, which has at most six parameters.
fn function_type(suspends: bool, taken: Items<KtType>, given: KtType) -> Result<KtType, Unresolved>
    ensures { Resolves result (spec.function_type suspends (map type_form taken) (type_form given)) }
{
    if taken.len() <= 6 {
        let mut all = taken;
        all.push(given)?;
        Ok(KtType::of(false, TypeConstructor::Function(suspends), all))
    } else {
        Err(Unresolved::Refused)
    }
}

/// The value, where there is one.
fn or_refused(meaning: Option<Meaning>) -> Result<Meaning, Unresolved>
    ensures { Answers (λ m. m) result meaning }
{
    match meaning {
        Some(meaning) => Ok(meaning),
        None => Err(Unresolved::Refused),
    }
}

/// What a type that is written means: `Refused` exactly where it breaks a rule.
#[cycle(resolved)]
pub fn resolved(
    alloc: Global,
    classes: &ClassNames,
    parameters: &[DeclaredTypeParameter],
    written: &TypeReference,
) -> Result<KtType, Unresolved>
    requires { length parameters.now < 2 ^ 32 }
    ensures { Resolves result (spec.resolved (class_named classes.now) parameters.now (type_tree written.now)) }
{
    match written {
        TypeReference::Named(name, arguments) => {
            let head = or_refused(meaning_of(classes, parameters, name))?;
            let arguments = resolved_all(alloc, classes, parameters, arguments.as_slice())?;
            applied(head, arguments)
        }
        TypeReference::Function(suspends, taken, given) => {
            let taken = resolved_all(alloc, classes, parameters, taken.as_slice())?;
            let given = resolved(alloc, classes, parameters, given.get())?;
            function_type(*suspends, taken, given)
        }
        TypeReference::Nullable(inner) => {
            let inner = resolved(alloc, classes, parameters, inner.get())?;
            Ok(inner.with_null())
        }
        TypeReference::Parenthesized(inner) => resolved(alloc, classes, parameters, inner.get()),
    }
}

/// Each of them.
#[cycle(resolved)]
pub fn resolved_all(
    alloc: Global,
    classes: &ClassNames,
    parameters: &[DeclaredTypeParameter],
    written: &[TypeReference],
) -> Result<Items<KtType>, Unresolved>
    requires { length parameters.now < 2 ^ 32 }
    ensures { Answers (map type_form) result
        (spec.resolved_all (class_named classes.now) parameters.now [] (types_of (map type_tree written.now))) }
{
    let mut done = Items::new(alloc);
    for each in written {
        let each = resolved(alloc, classes, parameters, each)?;
        done.push(each)?;
    }
    Ok(done)
}
