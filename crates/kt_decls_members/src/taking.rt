//! The names that members take.

ghost use Rattle.kt_decls_names.specs.Taken.{is_taken};
ghost use Rattle.kt_decls_members.specs.Known.{IsTakenBy};
ghost use Rattle.kt_decls_rules.specs.Names.{Taken, a_value, are_free, taken_by_function, taken_by_parameter};
ghost use Rattle.kt_tree.specs.Declarations.{constructor_parameter_tree, function_tree};
ghost use Rattle.std.specs.List.{flat_map};
ghost use Rattle.std.specs.Prelude.{List, [], ◌∷◌, ◌++◌, ◌≡◌, length, map, IfOk, OnOk};

use kt_base::{Name, NoMemory};
use kt_decls_names::TakenNames;
use kt_tree::{ConstructorParameter, ConstructorParameterKind, FunctionDeclaration};

/// The number of parameters, as far as a `u32` counts.
pub fn count_of(count: usize) -> Result<u32, NoMemory>
    ensures { IfOk result (λ number. number ≡ count) }
{
    match u32::try_from(count) {
        Ok(number) => Ok(number),
        Err(_) => Err(NoMemory),
    }
}

/// Takes the name of a function with its number of parameters, and says whether it was free.
pub fn take_function(
    taken: &mut TakenNames,
    function: &FunctionDeclaration,
) -> Result<bool, NoMemory>
    ensures free { IfOk result (λ free. (earlier : List Taken) → IsTakenBy (is_taken taken.old) earlier →
        free ≡ are_free earlier (taken_by_function (function_tree function.now) ∷ [])) }
    ensures taken { OnOk result ((earlier : List Taken) → IsTakenBy (is_taken taken.old) earlier →
        IsTakenBy (is_taken taken.new) (earlier ++ taken_by_function (function_tree function.now) ∷ [])) }
{
    let count = count_of(function.parameters.len())?;
    taken.take_function(&function.name, count)
}

/// Takes the name of a property, and says whether it was free.
#[tactic(auto, using(crate::proofs::TakenOn::free_told, crate::proofs::TakenOn::taken_told))]
pub fn take_property(taken: &mut TakenNames, name: &Name) -> Result<bool, NoMemory>
    ensures free { IfOk result (λ free. (earlier : List Taken) → IsTakenBy (is_taken taken.old) earlier →
        free ≡ are_free earlier (a_value name.now ∷ [])) }
    ensures taken { OnOk result ((earlier : List Taken) → IsTakenBy (is_taken taken.old) earlier →
        IsTakenBy (is_taken taken.new) (earlier ++ a_value name.now ∷ [])) }
{
    taken.take_value(name)
}

/// Takes the name of a parameter of a constructor, where it is a property.
fn take_parameter(taken: &mut TakenNames, parameter: &ConstructorParameter) -> Result<(), NoMemory>
    ensures { OnOk result ((earlier : List Taken) → IsTakenBy (is_taken taken.old) earlier →
        IsTakenBy (is_taken taken.new) (earlier ++ taken_by_parameter (constructor_parameter_tree parameter.now))) }
{
    match parameter.kind {
        ConstructorParameterKind::Plain => Ok(()),
        ConstructorParameterKind::Val => take_name(taken, &parameter.name),
        ConstructorParameterKind::Var => take_name(taken, &parameter.name),
    }
}

/// Takes the name of a property, whether it was free or not.
fn take_name(taken: &mut TakenNames, name: &Name) -> Result<(), NoMemory>
    ensures { OnOk result ((earlier : List Taken) → IsTakenBy (is_taken taken.old) earlier →
        IsTakenBy (is_taken taken.new) (earlier ++ a_value name.now ∷ [])) }
{
    let _free = take_property(taken, name)?;
    Ok(())
}

/// Takes the names of the properties of a constructor.
pub fn take_parameters(
    taken: &mut TakenNames,
    parameters: &[ConstructorParameter],
) -> Result<(), NoMemory>
    ensures { OnOk result ((earlier : List Taken) → IsTakenBy (is_taken taken.old) earlier →
        IsTakenBy (is_taken taken.new)
        (earlier ++ flat_map taken_by_parameter (map constructor_parameter_tree parameters.now))) }
{
    for parameter in parameters {
        take_parameter(taken, parameter)?;
    }
    Ok(())
}
