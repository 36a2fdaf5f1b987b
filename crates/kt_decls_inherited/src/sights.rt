//! What is seen of a function of a class.

ghost use Rattle.kt_decls_inherited.specs.Known as known;
ghost use Rattle.kt_decls_inherited.specs.Sights.{seen_with, sight_form, signature_with, types_form};
ghost use Rattle.kt_decls_types.specs.Scopes.{class_named};
ghost use Rattle.kt_tree.specs.Declarations.{function_tree, maybe_function_body, typed_parameter_tree};
ghost use Rattle.kt_tree.specs.Types.{maybe_type};
ghost use Rattle.kt_types_tree.specs.Types.{forms_of, type_form};
ghost use Rattle.std.specs.Prelude.{◌≡◌, ◌++◌, ◌<◌, ◌^◌, length, map, option_map, IfOk, OnOk};

use kt_base::NoMemory;
use kt_decls_hierarchy::supertypes::meaning;
use kt_decls_types::ClassNames;
use kt_tree::{FunctionDeclaration, Parameter, TypeReference};
use kt_typed::DeclaredTypeParameter;
use kt_types::substitution::{substitute, substitute_all};
use kt_types_tree::{KtType, TypeConstructor};
use sqlite_items::Items;
use std::alloc::Global;

/// The types of a function.
#[derive(Drop)]
pub struct FunctionTypes {
    pub parameters: Items<KtType>,
    pub result: KtType,
}

/// A function of a class, as seen from a class below.
#[derive(Drop)]
pub struct Sight {
    /// Whether a function of a class below may override it.
    pub is_open: bool,
    pub has_body: bool,
    pub is_suspend: bool,
    /// None where a type of it has no meaning.
    pub types: Option<FunctionTypes>,
}

/// The types of parameters, if all have a meaning.
#[tactic(auto, using(crate::proofs::Meant::one_more, crate::proofs::Meant::at_first))]
fn parameters_meant(
    alloc: Global,
    classes: &ClassNames,
    scope: &[DeclaredTypeParameter],
    parameters: &[Parameter],
) -> Result<Option<Items<KtType>>, NoMemory>
    requires { length scope.now < 2 ^ 32 }
    ensures { IfOk result (λ found. option_map (map type_form) found
        ≡ known.all_meant (class_named classes.now) scope.now
        (map (λ p. p.annotation) (map typed_parameter_tree parameters.now))) }
{
    let mut done = Items::new(alloc);
    for parameter in parameters {
        match meaning(alloc, classes, scope, &parameter.annotation)? {
            Some(found) => done.push(found)?,
            None => return Ok(None),
        }
    }
    Ok(Some(done))
}

/// The result, which is `Unit` where none is written.
fn result_meant(
    alloc: Global,
    classes: &ClassNames,
    scope: &[DeclaredTypeParameter],
    written: &Option<TypeReference>,
) -> Result<Option<KtType>, NoMemory>
    requires { length scope.now < 2 ^ 32 }
    ensures { IfOk result (λ found. option_map type_form found
        ≡ known.result_meant (class_named classes.now) scope.now (maybe_type written.now)) }
{
    match written {
        Some(written) => meaning(alloc, classes, scope, written),
        None => Ok(Some(KtType::plain(alloc, false, TypeConstructor::Unit))),
    }
}

fn both(parameters: Option<Items<KtType>>, given: Option<KtType>) -> Option<FunctionTypes>
    ensures { option_map types_form result
        ≡ known.both (option_map (map type_form) parameters) (option_map type_form given) }
{
    match parameters {
        Some(parameters) => match given {
            Some(result) => Some(FunctionTypes { parameters, result }),
            None => None,
        },
        None => None,
    }
}

/// The types of a function, if all have a meaning.
pub fn function_types(
    alloc: Global,
    classes: &ClassNames,
    scope: &[DeclaredTypeParameter],
    function: &FunctionDeclaration,
) -> Result<Option<FunctionTypes>, NoMemory>
    requires { length scope.now < 2 ^ 32 }
    ensures { IfOk result (λ found. option_map types_form found
        ≡ known.signature_of (class_named classes.now) scope.now (function_tree function.now)) }
{
    let parameters = parameters_meant(alloc, classes, scope, function.parameters.as_slice())?;
    let given = result_meant(alloc, classes, scope, &function.result)?;
    Ok(both(parameters, given))
}

/// The types with the arguments in place of the type parameters.
fn seen_types(
    alloc: Global,
    arguments: &[KtType],
    types: &FunctionTypes,
) -> Result<FunctionTypes, NoMemory>
    ensures { IfOk result (λ seen. types_form seen
        ≡ signature_with (forms_of (map type_form arguments.now)) (types_form types.now)) }
{
    let result = substitute(alloc, &types.result, arguments)?;
    let parameters = substitute_all(alloc, types.parameters.as_slice(), arguments)?;
    Ok(FunctionTypes { parameters, result })
}

fn seen_types_if(
    alloc: Global,
    arguments: &[KtType],
    types: &Option<FunctionTypes>,
) -> Result<Option<FunctionTypes>, NoMemory>
    ensures { IfOk result (λ found. option_map types_form found
        ≡ option_map (signature_with (forms_of (map type_form arguments.now))) (option_map types_form types.now)) }
{
    match types {
        Some(types) => Ok(Some(seen_types(alloc, arguments, types)?)),
        None => Ok(None),
    }
}

/// What is seen of a function of a supertype, from the class that declares that supertype with these arguments.
fn seen_from(alloc: Global, arguments: &[KtType], sight: &Sight) -> Result<Sight, NoMemory>
    ensures { IfOk result (λ found. sight_form found
        ≡ seen_with (forms_of (map type_form arguments.now)) (sight_form sight.now)) }
{
    Ok(Sight {
        is_open: sight.is_open,
        has_body: sight.has_body,
        is_suspend: sight.is_suspend,
        types: seen_types_if(alloc, arguments, &sight.types)?,
    })
}

/// Puts what is seen of each behind others.
pub fn push_seen(
    alloc: Global,
    arguments: &[KtType],
    sights: &[Sight],
    done: &mut Items<Sight>,
) -> Result<(), NoMemory>
    ensures { OnOk result (map sight_form done.new ≡ map sight_form done.old
        ++ map (seen_with (forms_of (map type_form arguments.now))) (map sight_form sights.now)) }
{
    for sight in sights {
        let found = seen_from(alloc, arguments, sight)?;
        done.push(found)?;
    }
    Ok(())
}
