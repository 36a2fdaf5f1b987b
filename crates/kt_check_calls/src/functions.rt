//! The functions of the file, called by their names.

ghost use Rattle.kt_check_calls.specs.Lists.{first_named};
ghost use Rattle.kt_check_calls.specs.Targets.{numbered_form, target_form, wanted_form};
ghost use Rattle.kt_check_names.specs.Views.{context_form};
ghost use Rattle.kt_check_deciding.specs.Outcomes.{there};
ghost use Rattle.kt_check_names.specs.Answers.{Answers};
ghost use Rattle.kt_check_places.specs.Places.{context_at};
ghost use Rattle.kt_check_rules.specs.Calls as spec;
ghost use Rattle.kt_check_rules.specs.Calls.{Callable};
ghost use Rattle.kt_check_rules.specs.States.{is_name};
ghost use Rattle.kt_tree.specs.Types.{type_tree};
ghost use Rattle.kt_typed.specs.Headers.{function_form, parameter_form};
ghost use Rattle.std.specs.Prelude.{◌≡◌, ◌==◌, ◌&&◌, IfOk, None, Option, if◌then◌else◌, length, map, option_map};

use crate::targets::{CallTarget, Wanted};
use kt_base::{Name, NoMemory};
use kt_check_names::known::number_of;
use kt_check_names::{BodyContext, Why};
use kt_check_places::Place;
use kt_tree::TypeReference;
use kt_typed::{Callee, DeclaredFunction, DeclaredParameter, DeclaredTypeParameter};
use sqlite_items::Items;
use std::alloc::Global;

/// A function of the file, with its number.
#[derive(Clone, Copy)]
pub struct NumberedFunction<'a> {
    pub number: usize,
    pub function: &'a DeclaredFunction,
}

/// Whether a function has a name, and takes so many arguments.
fn is_called_so(f: &DeclaredFunction, name: &Name, count: usize) -> bool
    ensures { result ≡ (is_name (function_form f.now).name name.now && length (function_form f.now).parameters == count) }
{
    f.name == *name && f.parameters.len() == count
}

/// The first function of a name that takes so many arguments.
fn first_named<'a>(
    functions: &'a [DeclaredFunction],
    name: &Name,
    count: usize,
) -> Option<NumberedFunction<'a>>
    ensures { option_map numbered_form result ≡ first_named 0 (map function_form functions.now) name.now count }
{
    let mut number = 0;
    for function in functions {
        if is_called_so(function, name, count) {
            return Some(NumberedFunction { number, function });
        }
        number += 1;
    }
    None
}

/// Whether neither type parameters are declared nor type arguments written.
fn has_no_types(parameters: &[DeclaredTypeParameter], written: &[TypeReference]) -> bool
    ensures { (o : Option Callable) → spec.without_type_arguments parameters.now (map type_tree written.now) o ≡
        (if result then o else None) }
{
    match parameters {
        [] => match written {
            [] => true,
            [_, ..] => false,
        },
        [_, ..] => false,
    }
}

/// Whether a function may be called here: one that suspends in suspend functions alone.
fn may_call(c: &BodyContext, suspends: bool) -> bool
    ensures { result ≡ spec.may_call (context_form c.now) suspends }
{
    if suspends { c.is_suspend } else { true }
}

fn wanted_by(alloc: Global, parameters: &[DeclaredParameter]) -> Result<Items<Wanted>, NoMemory>
    ensures { IfOk result (λ ws. map wanted_form ws ≡ map spec.wanted_by (map parameter_form parameters.now)) }
{
    let mut wanted = Items::new(alloc);
    for parameter in parameters {
        wanted.push(Wanted::OfType(parameter.annotation.copy(alloc)?))?;
    }
    Ok(wanted)
}

/// A call of a function of the file.
fn function_call(alloc: Global, number: usize, f: &DeclaredFunction) -> Result<CallTarget, NoMemory>
    ensures { IfOk result (λ c. target_form c ≡ spec.function_call number (function_form f.now)) }
{
    let number = number_of(number)?;
    let gives = f.result.copy(alloc)?;
    let wanted = wanted_by(alloc, f.parameters.as_slice())?;
    Ok(CallTarget {
        callee: Callee::Function(number),
        type_arguments: Items::new(alloc),
        wanted,
        gives,
        suspends: f.is_suspend,
    })
}

/// A call of a function that was found. It is refused with type arguments, of a generic function, and of one that suspends
/// outside of suspend functions.
pub fn calling(p: &Place, f: NumberedFunction, written: &[TypeReference]) -> Result<CallTarget, Why>
    ensures { Answers target_form result (there (spec.calling (context_at p.now) f.entry.number
        (function_form f.entry.function.now) (map type_tree written.now))) }
{
    if has_no_types(f.function.type_parameters.as_slice(), written) {
        if may_call(p.context, f.function.is_suspend) {
            Ok(function_call(p.alloc, f.number, f.function)?)
        } else {
            Err(Why::Refused)
        }
    } else {
        Err(Why::Refused)
    }
}

/// The function of the file that a name means, called with so many arguments.
pub fn function_named<'a>(p: &Place<'a>, name: &Name, count: usize) -> Option<NumberedFunction<'a>>
    ensures { option_map numbered_form result ≡
        first_named 0 (map function_form p.now.context.now.headers.now.functions) name.now count }
{
    first_named(p.context.headers.functions.as_slice(), name, count)
}
