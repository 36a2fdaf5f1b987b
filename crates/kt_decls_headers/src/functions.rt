//! Functions and their parts.

ghost use Rattle.kt_decls_headers.specs.Functions as spec;
ghost use Rattle.kt_decls_rules.specs.Tables.{bound_meant};
ghost use Rattle.kt_decls_types.specs.Scopes.{class_named};
ghost use Rattle.kt_tree.specs.Declarations.{function_tree, typed_parameter_tree};
ghost use Rattle.kt_tree.specs.Types.{maybe_type, type_tree};
ghost use Rattle.kt_typed.specs.Headers.{function_form, parameter_form};
ghost use Rattle.kt_types_tree.specs.Types.{type_form};
ghost use Rattle.std.specs.Prelude.{◌≡◌, ◌<◌, ◌^◌, length, map, option_map, IfOk};

use kt_base::NoMemory;
use kt_decls_hierarchy::supertypes::meaning;
use kt_decls_types::ClassNames;
use kt_tree::{FunctionDeclaration, Parameter, TypeReference};
use kt_typed::{DeclaredFunction, DeclaredParameter, DeclaredTypeParameter, Overridden};
use kt_types_tree::{KtType, TypeConstructor};
use sqlite_items::Items;
use std::alloc::Global;

/// The type that was found; no header that is well formed has one without.
fn or_any(found: Option<KtType>) -> KtType
    ensures { type_form result ≡ bound_meant (option_map type_form found) }
{
    match found {
        Some(found) => found,
        None => KtType::any(true),
    }
}

/// What a written type means.
pub fn type_in(
    alloc: Global,
    classes: &ClassNames,
    scope: &[DeclaredTypeParameter],
    written: &TypeReference,
) -> Result<KtType, NoMemory>
    requires { length scope.now < 2 ^ 32 }
    ensures { IfOk result (λ t. type_form t
        ≡ spec.type_in (class_named classes.now) scope.now (type_tree written.now)) }
{
    Ok(or_any(meaning(alloc, classes, scope, written)?))
}

/// A result, which is `Unit` where none is written.
fn result_in(
    alloc: Global,
    classes: &ClassNames,
    scope: &[DeclaredTypeParameter],
    written: &Option<TypeReference>,
) -> Result<KtType, NoMemory>
    requires { length scope.now < 2 ^ 32 }
    ensures { IfOk result (λ t. type_form t
        ≡ spec.result_in (class_named classes.now) scope.now (maybe_type written.now)) }
{
    match written {
        Some(written) => type_in(alloc, classes, scope, written),
        None => Ok(KtType::plain(alloc, false, TypeConstructor::Unit)),
    }
}

fn parameter_in(
    alloc: Global,
    classes: &ClassNames,
    scope: &[DeclaredTypeParameter],
    parameter: &Parameter,
) -> Result<DeclaredParameter, NoMemory>
    requires { length scope.now < 2 ^ 32 }
    ensures { IfOk result (λ p. parameter_form p
        ≡ spec.parameter_in (class_named classes.now) scope.now (typed_parameter_tree parameter.now)) }
{
    let name = parameter.name.clone()?;
    let annotation = type_in(alloc, classes, scope, &parameter.annotation)?;
    Ok(DeclaredParameter { name, annotation })
}

/// The parameters with their types.
fn parameters_in(
    alloc: Global,
    classes: &ClassNames,
    scope: &[DeclaredTypeParameter],
    parameters: &[Parameter],
) -> Result<Items<DeclaredParameter>, NoMemory>
    requires { length scope.now < 2 ^ 32 }
    ensures { IfOk result (λ ps. map parameter_form ps
        ≡ map (spec.parameter_in (class_named classes.now) scope.now)
        (map typed_parameter_tree parameters.now)) }
{
    let mut done = Items::new(alloc);
    for parameter in parameters {
        done.push(parameter_in(alloc, classes, scope, parameter)?)?;
    }
    Ok(done)
}

/// The header of a function with these type parameters of its own.
pub fn function_in(
    alloc: Global,
    classes: &ClassNames,
    scope: &[DeclaredTypeParameter],
    own: Items<DeclaredTypeParameter>,
    is_open: bool,
    overrides: Option<Overridden>,
    function: &FunctionDeclaration,
) -> Result<DeclaredFunction, NoMemory>
    requires { length scope.now < 2 ^ 32 }
    ensures { IfOk result (λ f. function_form f ≡ spec.function_in (class_named classes.now) scope.now own is_open
        overrides (function_tree function.now)) }
{
    let parameters = parameters_in(alloc, classes, scope, function.parameters.as_slice())?;
    let given = result_in(alloc, classes, scope, &function.result)?;
    let name = function.name.clone()?;
    Ok(DeclaredFunction {
        at: function.at,
        name,
        type_parameters: own,
        parameters,
        result: given,
        is_suspend: function.modifiers.is_suspend,
        is_open,
        has_body: function.body.is_some(),
        overrides,
    })
}
