//! The headers of functions at top level.

ghost use Rattle.kt_decls_names.specs.Taken.{is_taken};
ghost use Rattle.kt_decls_rules.specs.Names.{Taken};
ghost use Rattle.kt_decls_rules.specs.Names as rules;
ghost use Rattle.kt_decls_table.specs.Found.{AnswersWith};
ghost use Rattle.kt_decls_table.specs.Functions as spec;
ghost use Rattle.kt_decls_table.specs.TopFunctions.{IsTopFunction};
ghost use Rattle.kt_decls_types.specs.Answers.{Answers};
ghost use Rattle.kt_decls_types.specs.Scopes.{class_named};
ghost use Rattle.kt_tree.specs.Declarations.{function_tree, typed_parameter_tree};
ghost use Rattle.kt_tree.specs.Types.{maybe_type};
ghost use Rattle.kt_typed.specs.Headers.{FunctionForm, parameter_form, function_form};
ghost use Rattle.kt_types_tree.specs.Types.{TypeForm, type_form, shape_form, forms_of};
ghost use Rattle.std.specs.Prelude.{◌≡◌, ◌<◌, ◌+◌, ◌^◌, List, map, length, IfOk, OnOk};

use crate::apart::are_distinct;
use crate::type_parameters::{TypeParameters, declared_type_parameters};
use kt_base::{Name, NoMemory};
use kt_decls_names::TakenNames;
use kt_decls_types::{ClassNames, Unresolved, resolved};
use kt_tree::{FunctionDeclaration, FunctionModifiers, Parameter, TypeReference};
use kt_typed::{DeclaredFunction, DeclaredParameter, DeclaredTypeParameter};
use kt_types_builtins::{BuiltInFunction, BuiltInThrowable, BuiltInType};
use kt_types_tree::{KtType, TypeConstructor, TypeShape};
use sqlite_items::Items;
use std::alloc::Global;

/// Whether no declaration at top level may have this name.
pub fn is_reserved(name: &Name) -> bool
    ensures { result ≡ rules.is_reserved name.now }
{
    let bytes = name.as_bytes();
    BuiltInType::of_name(bytes).is_some()
        || BuiltInThrowable::of_name(bytes).is_some()
        || BuiltInFunction::of_name(bytes).is_some()
        || bytes == b"MainKt".as_slice()
}

/// A parameter with its type.
fn declared_parameter(
    alloc: Global,
    classes: &ClassNames,
    scope: &[DeclaredTypeParameter],
    parameter: &Parameter,
) -> Result<DeclaredParameter, Unresolved>
    requires { length scope.now < 2 ^ 32 }
    ensures { Answers parameter_form result
        (spec.parameter_meant (class_named classes.now) scope.now (typed_parameter_tree parameter.now)) }
{
    let annotation = resolved(alloc, classes, scope, &parameter.annotation)?;
    let name = parameter.name.clone()?;
    Ok(DeclaredParameter { name, annotation })
}

/// The parameters with their types.
#[tactic(auto, using(crate::proofs::Loops::one_more, crate::proofs::Loops::no_more, crate::proofs::Loops::all_done))]
fn declared_parameters(
    alloc: Global,
    classes: &ClassNames,
    scope: &[DeclaredTypeParameter],
    parameters: &[Parameter],
) -> Result<Items<DeclaredParameter>, Unresolved>
    requires { length scope.now < 2 ^ 32 }
    ensures { Answers (map parameter_form) result
        (spec.parameters_meant (class_named classes.now) scope.now (map typed_parameter_tree parameters.now)) }
{
    let mut done = Items::new(alloc);
    for parameter in parameters {
        let parameter = declared_parameter(alloc, classes, scope, parameter)?;
        done.push(parameter)?;
    }
    Ok(done)
}

/// The result, which is `Unit` where none is written.
fn declared_result(
    alloc: Global,
    classes: &ClassNames,
    scope: &[DeclaredTypeParameter],
    written: &Option<TypeReference>,
) -> Result<KtType, Unresolved>
    requires { length scope.now < 2 ^ 32 }
    ensures { Answers type_form result
        (spec.result_meant (class_named classes.now) scope.now (maybe_type written.now)) }
{
    match written {
        Some(written) => resolved(alloc, classes, scope, written),
        None => Ok(KtType::plain(alloc, false, TypeConstructor::Unit)),
    }
}

/// Whether there are no types.
pub fn are_none(types: &[KtType]) -> bool
    ensures { result ≡ spec.are_no_forms (forms_of (map type_form types.now)) }
{
    match types {
        [] => true,
        [_first, _rest @ ..] => false,
    }
}

fn is_unit_of(constructor: TypeConstructor, alone: bool) -> bool
    ensures { result ≡ spec.is_unit_of constructor alone }
{
    match constructor {
        TypeConstructor::Unit => alone,
        _ => false,
    }
}

fn is_unit_shape(shape: &TypeShape) -> bool
    ensures { result ≡ spec.is_unit_shape (shape_form shape.now) }
{
    match shape {
        TypeShape::Of(constructor, arguments) => {
            is_unit_of(*constructor, are_none(arguments.as_slice()))
        }
        _ => false,
    }
}

/// Whether the type is `Unit`.
fn is_unit(of: &KtType) -> bool
    ensures { result ≡ spec.is_unit (type_form of.now) }
{
    if of.nullable {
        false
    } else {
        is_unit_shape(&of.shape)
    }
}

/// Whether the function is `main`, which has no parameters.
fn is_main(name: &Name, parameters: &[Parameter]) -> bool
    ensures { result ≡ spec.is_main name.now (map typed_parameter_tree parameters.now) }
{
    name.as_bytes() == b"main".as_slice() && parameters.is_empty()
}

/// Whether a function at top level may have these.
fn are_plain(modifiers: FunctionModifiers) -> bool
    ensures { result ≡ spec.are_plain modifiers }
{
    !modifiers.is_override && !modifiers.is_open && !modifiers.is_abstract
}

/// Whether there are no type parameters.
fn has_none(scope: &[DeclaredTypeParameter]) -> bool
    ensures { result ≡ spec.are_none scope.now }
{
    match scope {
        [] => true,
        [_first, _rest @ ..] => false,
    }
}

/// Whether `main` has no type parameters and the result `Unit`.
fn fits_main(is_main: bool, scope: &[DeclaredTypeParameter], result_type: &KtType) -> bool
    ensures { result ≡ spec.fits_main is_main scope.now (type_form result_type.now) }
{
    if is_main {
        has_none(scope) && is_unit(result_type)
    } else {
        true
    }
}

/// Whether the header of a function breaks no rule that is told without its types.
fn is_fine_name(name: &Name, is_free: bool, apart: bool, modifiers: FunctionModifiers) -> bool
    ensures { result ≡ spec.is_fine_name name.now is_free apart modifiers }
{
    is_free && apart && !is_reserved(name) && are_plain(modifiers)
}

/// The header with these types, where they fit `main`.
fn with_types(
    scope: Items<DeclaredTypeParameter>,
    function: &FunctionDeclaration,
    parameters: Items<DeclaredParameter>,
    result_type: KtType,
) -> Result<DeclaredFunction, Unresolved>
    ensures { Answers function_form result
        (spec.with_types scope (function_tree function.now) (map parameter_form parameters)
        (type_form result_type)) }
{
    let main = is_main(&function.name, function.parameters.as_slice());
    if fits_main(main, scope.as_slice(), &result_type) {
        Ok(DeclaredFunction {
            at: function.at,
            name: function.name.clone()?,
            type_parameters: scope,
            parameters,
            result: result_type,
            is_suspend: function.modifiers.is_suspend,
            is_open: false,
            has_body: function.body.is_some(),
            overrides: None,
        })
    } else {
        Err(Unresolved::Refused)
    }
}

/// The types of the header, and the header.
fn function_header(
    alloc: Global,
    classes: &ClassNames,
    scope: Items<DeclaredTypeParameter>,
    function: &FunctionDeclaration,
) -> Result<DeclaredFunction, Unresolved>
    requires { length scope < 2 ^ 32 }
    ensures { Answers function_form result
        (spec.function_header (class_named classes.now) scope (function_tree function.now)) }
{
    let written = function.parameters.as_slice();
    let parameters = declared_parameters(alloc, classes, scope.as_slice(), written)?;
    let result_type = declared_result(alloc, classes, scope.as_slice(), &function.result)?;
    with_types(scope, function, parameters, result_type)
}

/// The header, where it is fine so far.
fn header_if(
    alloc: Global,
    classes: &ClassNames,
    scope: Items<DeclaredTypeParameter>,
    function: &FunctionDeclaration,
    fine: bool,
) -> Result<DeclaredFunction, Unresolved>
    requires { length scope < 2 ^ 32 }
    ensures { Answers function_form result
        (spec.header_if (class_named classes.now) scope (function_tree function.now) fine) }
{
    if fine {
        function_header(alloc, classes, scope, function)
    } else {
        Err(Unresolved::Refused)
    }
}

/// The number of items, as far as a `u32` counts.
fn count_of(parameters: &[Parameter]) -> Result<u32, NoMemory>
    ensures { IfOk result (λ count. count ≡ length (map typed_parameter_tree parameters.now)) }
{
    match u32::try_from(parameters.len()) {
        Ok(count) => Ok(count),
        Err(_) => Err(NoMemory),
    }
}

/// The header of a function with these type parameters in scope, which takes its name.
fn header_beside(
    alloc: Global,
    classes: &ClassNames,
    taken: &mut TakenNames,
    scope: Items<DeclaredTypeParameter>,
    function: &FunctionDeclaration,
) -> Result<DeclaredFunction, Unresolved>
    requires { length scope < 2 ^ 32 }
    ensures header { Answers function_form result
        (spec.header_beside (class_named classes.now) (is_taken taken.old) scope (function_tree function.now)) }
    ensures names { OnOk result ((t : Taken) →
        is_taken taken.new t
        ≡ rules.and_taken (is_taken taken.old) (rules.taken_by_function (function_tree function.now)) t) }
{
    let count = count_of(function.parameters.as_slice())?;
    let is_free = taken.take_function(&function.name, count)?;
    let apart = are_distinct(alloc, function.parameters.as_slice())?;
    let fine = is_fine_name(&function.name, is_free, apart, function.modifiers);
    header_if(alloc, classes, scope, function, fine)
}

/// The header of a function at top level, and the bounds of its type parameters.
#[derive(Drop)]
pub struct TopFunction {
    pub header: DeclaredFunction,
    pub bounds: Items<KtType>,
}

/// The header of a function at top level, which takes its name; its first type parameter gets the row. `Refused`
/// exactly where it breaks a rule.
pub fn top_function(
    alloc: Global,
    classes: &ClassNames,
    taken: &mut TakenNames,
    row: u32,
    function: &FunctionDeclaration,
) -> Result<TopFunction, Unresolved>
    requires { row + length function.now.type_parameters < 2 ^ 32 }
    ensures header { AnswersWith result
        (λ top. IsTopFunction (class_named classes.now) (is_taken taken.old) row (function_tree function.now)
        (function_form top.header) (map type_form top.bounds))
        ((h : FunctionForm) (bounds : List TypeForm) →
        IsTopFunction (class_named classes.now) (is_taken taken.old) row (function_tree function.now) h bounds → ⊥) }
    ensures names { OnOk result ((t : Taken) →
        is_taken taken.new t
        ≡ rules.and_taken (is_taken taken.old) (rules.taken_by_function (function_tree function.now)) t) }
{
    let written = function.type_parameters.as_slice();
    let parameters = declared_type_parameters(alloc, classes, row, written)?;
    let TypeParameters { declared, bounds } = parameters;
    let header = header_beside(alloc, classes, taken, declared, function)?;
    Ok(TopFunction { header, bounds })
}
