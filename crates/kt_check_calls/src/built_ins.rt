//! The functions that every program has, called by their names.

ghost use Rattle.kt_check_calls.specs.Targets.{target_form};
ghost use Rattle.kt_check_deciding.specs.Outcomes.{there};
ghost use Rattle.kt_check_names.specs.Answers.{Answers};
ghost use Rattle.kt_check_places.specs.Places.{context_at};
ghost use Rattle.kt_check_rules.specs.Calls as spec;
ghost use Rattle.kt_check_rules.specs.Choices.{then_on};
ghost use Rattle.kt_check_rules.specs.States.{meaning};
ghost use Rattle.kt_tree.specs.Types.{type_tree};
ghost use Rattle.kt_types_builtins.specs.declared.functions.BuiltInFunction.TheVariants.{ArrayOfNulls, IntArray, Println};
ghost use Rattle.kt_types_tree.specs.Types.{type_form};
ghost use Rattle.std.specs.Prelude.{◌≡◌, ◌∷◌, [], IfOk, map};

use crate::targets::{CallTarget, Wanted};
use kt_base::NoMemory;
use kt_check_names::Why;
use kt_check_names::names::{meaning, one_type};
use kt_check_places::Place;
use kt_tree::TypeReference;
use kt_typed::{BuiltIn, Callee};
use kt_types_builtins::BuiltInFunction;
use kt_types_tree::{KtType, TypeConstructor, TypeShape};
use sqlite_items::Items;
use std::alloc::Global;

fn one_wanted(alloc: Global, wanted: Wanted) -> Result<Items<Wanted>, NoMemory>
    ensures { IfOk result (λ ws. ws ≡ wanted ∷ []) }
{
    let mut all = Items::new(alloc);
    all.push(wanted)?;
    Ok(all)
}

/// `println()`
fn print_nothing(alloc: Global) -> CallTarget
    ensures { target_form result ≡ spec.print_nothing }
{
    CallTarget {
        callee: Callee::BuiltIn(BuiltIn::Println),
        type_arguments: Items::new(alloc),
        wanted: Items::new(alloc),
        gives: KtType::plain(alloc, false, TypeConstructor::Unit),
        suspends: false,
    }
}

/// `println` of a value
fn print_value(alloc: Global) -> Result<CallTarget, NoMemory>
    ensures { IfOk result (λ c. target_form c ≡ spec.print_value) }
{
    let wanted = one_wanted(alloc, Wanted::Printed)?;
    Ok(CallTarget {
        callee: Callee::BuiltIn(BuiltIn::Println),
        type_arguments: Items::new(alloc),
        wanted,
        gives: KtType::plain(alloc, false, TypeConstructor::Unit),
        suspends: false,
    })
}

/// `IntArray` of a size
fn make_ints(alloc: Global) -> Result<CallTarget, NoMemory>
    ensures { IfOk result (λ c. target_form c ≡ spec.make_ints) }
{
    let wanted = one_wanted(
        alloc,
        Wanted::OfType(KtType::plain(alloc, false, TypeConstructor::Int)),
    )?;
    Ok(CallTarget {
        callee: Callee::BuiltIn(BuiltIn::IntArray),
        type_arguments: Items::new(alloc),
        wanted,
        gives: KtType::plain(alloc, false, TypeConstructor::IntArray),
        suspends: false,
    })
}

/// `Array<T?>`
fn array_of(alloc: Global, element: KtType) -> Result<KtType, NoMemory>
    ensures { IfOk result (λ t. type_form t ≡ spec.array_of (type_form element)) }
{
    let arguments = one_type(alloc, element.with_null())?;
    Ok(KtType::of(false, TypeConstructor::Array, arguments))
}

/// `arrayOfNulls` of a type that is no type parameter
fn make_nulls(alloc: Global, element: KtType) -> Result<CallTarget, NoMemory>
    ensures { IfOk result (λ c. target_form c ≡ spec.make_nulls (type_form element)) }
{
    let gives = array_of(alloc, element.copy(alloc)?)?;
    let wanted = one_wanted(
        alloc,
        Wanted::OfType(KtType::plain(alloc, false, TypeConstructor::Int)),
    )?;
    let type_arguments = one_type(alloc, element)?;
    Ok(CallTarget {
        callee: Callee::BuiltIn(BuiltIn::ArrayOfNulls),
        type_arguments,
        wanted,
        gives,
        suspends: false,
    })
}

/// `arrayOfNulls` of a type. It is refused for a type parameter.
fn nulls_of(alloc: Global, element: KtType) -> Result<CallTarget, Why>
    ensures { Answers target_form result (there (spec.nulls_of (type_form element))) }
{
    match &element.shape {
        TypeShape::Parameter(_, _) => Err(Why::Refused),
        TypeShape::Nothing => Ok(make_nulls(alloc, element)?),
        TypeShape::Any => Ok(make_nulls(alloc, element)?),
        TypeShape::Of(_, _) => Ok(make_nulls(alloc, element)?),
    }
}

/// `arrayOfNulls` with a type that is written.
fn nulls_of_written(p: &Place, written: &TypeReference) -> Result<CallTarget, Why>
    ensures { Answers target_form result
        (there (then_on (meaning (context_at p.now) (type_tree written.now)) spec.nulls_of)) }
{
    match meaning(p.alloc, p.context, written) {
        Ok(t) => nulls_of(p.alloc, t),
        Err(why) => Err(why),
    }
}

/// `println` with so many arguments
fn print_called(p: &Place, count: usize) -> Result<CallTarget, Why>
    ensures { Answers target_form result (there (spec.function_called (context_at p.now) Println [] count)) }
{
    if count == 0 {
        Ok(print_nothing(p.alloc))
    } else if count == 1 {
        Ok(print_value(p.alloc)?)
    } else {
        Err(Why::Refused)
    }
}

/// `IntArray` with so many arguments
fn ints_called(p: &Place, count: usize) -> Result<CallTarget, Why>
    ensures { Answers target_form result (there (spec.function_called (context_at p.now) IntArray [] count)) }
{
    if count == 1 {
        Ok(make_ints(p.alloc)?)
    } else {
        Err(Why::Refused)
    }
}

/// `arrayOfNulls` with so many arguments
fn nulls_called(p: &Place, written: &TypeReference, count: usize) -> Result<CallTarget, Why>
    ensures { Answers target_form result (there
        (spec.function_called (context_at p.now) ArrayOfNulls (type_tree written.now ∷ []) count)) }
{
    if count == 1 {
        nulls_of_written(p, written)
    } else {
        Err(Why::Refused)
    }
}

/// A built-in function, with type arguments and so many arguments.
pub fn function_called(
    p: &Place,
    function: BuiltInFunction,
    written: &[TypeReference],
    count: usize,
) -> Result<CallTarget, Why>
    ensures { Answers target_form result (there
        (spec.function_called (context_at p.now) function (map type_tree written.now) count)) }
{
    match function {
        BuiltInFunction::Println => match written {
            [] => print_called(p, count),
            [_, ..] => Err(Why::Refused),
        },
        BuiltInFunction::IntArray => match written {
            [] => ints_called(p, count),
            [_, ..] => Err(Why::Refused),
        },
        BuiltInFunction::ArrayOfNulls => match written {
            [element] => nulls_called(p, element, count),
            [] => Err(Why::Refused),
            [_, _, ..] => Err(Why::Refused),
        },
        BuiltInFunction::Launch => Err(Why::Refused),
        BuiltInFunction::SuspendCoroutine => Err(Why::Refused),
    }
}
