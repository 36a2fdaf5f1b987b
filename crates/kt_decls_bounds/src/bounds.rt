//! Whether type arguments are within the bounds of their parameters.

ghost use Rattle.kt_decls_rules.specs.Rules.{AreBelowBounds, AreWithinBounds, Ends, IsBelowBound, IsWithinBounds, bound_at, header_at};
ghost use Rattle.kt_types_order.specs.Below.{IsBelow};
ghost use Rattle.kt_types_order.specs.Graph.{ClassesEnd};
ghost use Rattle.kt_types_tree.specs.Hierarchy.{header_form, hierarchy_form};
ghost use Rattle.kt_types_tree.specs.Types.{forms_of, substituted, type_form};
ghost use Rattle.std.specs.Option.{option_copied};
ghost use Rattle.std.specs.Prelude.{◌≡◌, ◌↔◌, IfOk, IsTrue, Some, map, option_map, slice_get};

use kt_base::NoMemory;
use kt_types::substitution::substitute;
use kt_types::subtyping::is_subtype;
use kt_types_tree::{ClassHeader, Hierarchy, KtType, TypeConstructor, TypeShape};
use sqlite_items::at;
use std::alloc::Global;

/// The bound of the type parameter in a row.
fn bound_in_row(h: &Hierarchy, row: usize) -> Option<&KtType>
    ensures { option_map type_form (option_copied result) ≡ slice_get (hierarchy_form h.now).bounds row }
{
    at(h.bounds.as_slice(), row)
}

/// The bound of a type parameter of a class, by its place.
fn bound_of_header<'a>(h: &'a Hierarchy, header: &ClassHeader, place: usize) -> Option<&'a KtType>
    ensures { option_map type_form (option_copied result)
        ≡ bound_at (hierarchy_form h.now) (Some (header_form header.now)) place }
{
    if place < header.parameters as usize {
        bound_in_row(h, header.first_bound as usize + place)
    } else {
        None
    }
}

fn bound_of_class(h: &Hierarchy, class: u32, place: usize) -> Option<&KtType>
    ensures { option_map type_form (option_copied result)
        ≡ bound_at (hierarchy_form h.now) (slice_get (hierarchy_form h.now).classes class) place }
{
    match at(h.classes.as_slice(), class as usize) {
        Some(header) => bound_of_header(h, header, place),
        None => None,
    }
}

/// The bound of the parameter for which an argument at this place stands.
fn bound_of(h: &Hierarchy, constructor: TypeConstructor, place: usize) -> Option<&KtType>
    ensures { option_map type_form (option_copied result)
        ≡ bound_at (hierarchy_form h.now) (header_at (hierarchy_form h.now) constructor) place }
{
    match constructor {
        TypeConstructor::Class(class) => bound_of_class(h, class, place),
        _ => None,
    }
}

/// Whether a type is below a bound, in which the arguments stand for the type parameters.
fn is_below(
    alloc: Global,
    h: &Hierarchy,
    all: &[KtType],
    argument: &KtType,
    bound: &KtType,
) -> Result<bool, NoMemory>
    requires { ClassesEnd (hierarchy_form h.now) }
    ensures { IfOk result (λ yes. IsTrue yes ↔ IsBelow (hierarchy_form h.now) (type_form argument.now)
        (substituted (forms_of (map type_form all.now)) (type_form bound.now))) }
{
    let bound = substitute(alloc, bound, all)?;
    Ok(is_subtype(h, argument, &bound))
}

/// The same, which is asked only where no class is above itself and no bound leads back to itself.
fn is_below_if(
    alloc: Global,
    h: &Hierarchy,
    ends: bool,
    all: &[KtType],
    argument: &KtType,
    bound: &KtType,
) -> Result<bool, NoMemory>
    requires { IsTrue ends ↔ Ends (hierarchy_form h.now) }
    ensures { IfOk result (λ yes. IsTrue yes ↔ IsBelowBound (hierarchy_form h.now)
        (forms_of (map type_form all.now)) (type_form argument.now) (Some (type_form bound.now))) }
{
    if ends {
        is_below(alloc, h, all, argument, bound)
    } else {
        Ok(true)
    }
}

/// Whether an argument at a place is below the bound there.
fn is_argument_below(
    alloc: Global,
    h: &Hierarchy,
    ends: bool,
    constructor: TypeConstructor,
    all: &[KtType],
    place: usize,
    argument: &KtType,
) -> Result<bool, NoMemory>
    requires { IsTrue ends ↔ Ends (hierarchy_form h.now) }
    ensures { IfOk result (λ yes. IsTrue yes ↔ IsBelowBound (hierarchy_form h.now)
        (forms_of (map type_form all.now)) (type_form argument.now)
        (bound_at (hierarchy_form h.now) (header_at (hierarchy_form h.now) constructor) place)) }
{
    match bound_of(h, constructor, place) {
        None => Ok(true),
        Some(bound) => is_below_if(alloc, h, ends, all, argument, bound),
    }
}

/// Whether the arguments of a type are below their bounds.
fn are_below(
    alloc: Global,
    h: &Hierarchy,
    ends: bool,
    constructor: TypeConstructor,
    all: &[KtType],
) -> Result<bool, NoMemory>
    requires { IsTrue ends ↔ Ends (hierarchy_form h.now) }
    ensures { IfOk result (λ yes. IsTrue yes ↔ AreBelowBounds (hierarchy_form h.now)
        (header_at (hierarchy_form h.now) constructor) (forms_of (map type_form all.now)) 0
        (forms_of (map type_form all.now))) }
{
    let mut place = 0;
    for argument in all {
        let below = is_argument_below(alloc, h, ends, constructor, all, place, argument)?;
        if !below {
            return Ok(false);
        }
        place += 1;
    }
    Ok(true)
}

/// Whether all type arguments in a type are below the bounds of their parameters. `ends` says whether types are
/// compared at all: no class is above itself, and no bound leads back to itself.
#[cycle(within)]
pub fn is_within_bounds(
    alloc: Global,
    h: &Hierarchy,
    ends: bool,
    t: &KtType,
) -> Result<bool, NoMemory>
    requires { IsTrue ends ↔ Ends (hierarchy_form h.now) }
    ensures { IfOk result (λ yes. IsTrue yes ↔ IsWithinBounds (hierarchy_form h.now) (type_form t.now)) }
{
    match &t.shape {
        TypeShape::Nothing => Ok(true),
        TypeShape::Any => Ok(true),
        TypeShape::Parameter(_, _) => Ok(true),
        TypeShape::Of(constructor, arguments) => {
            let below = are_below(alloc, h, ends, *constructor, arguments.as_slice())?;
            if below {
                are_within_bounds(alloc, h, ends, arguments.as_slice())
            } else {
                Ok(false)
            }
        }
    }
}

/// The same of each of several types.
#[cycle(within)]
pub fn are_within_bounds(
    alloc: Global,
    h: &Hierarchy,
    ends: bool,
    all: &[KtType],
) -> Result<bool, NoMemory>
    requires { IsTrue ends ↔ Ends (hierarchy_form h.now) }
    ensures { IfOk result (λ yes. IsTrue yes ↔ AreWithinBounds (hierarchy_form h.now)
        (forms_of (map type_form all.now))) }
{
    for t in all {
        let within = is_within_bounds(alloc, h, ends, t)?;
        if !within {
            return Ok(false);
        }
    }
    Ok(true)
}
