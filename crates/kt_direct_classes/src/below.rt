//! Which classes are below others by their declared supertypes.

ghost use Rattle.kt_direct_values.specs.Forms.{value_form};
ghost use Rattle.kt_meaning.specs.Classes as spec;
ghost use Rattle.kt_meaning.specs.Exceptions as exceptions;
ghost use Rattle.kt_typed.specs.Units.{unit_form};
ghost use Rattle.kt_types_tree.specs.Hierarchy.{super_form};
ghost use Rattle.std.specs.List.{list_any};
ghost use Rattle.std.specs.Prelude.{◌≡◌, map};

use kt_direct_values::{DirectShape, DirectValue};
use kt_typed::TypedUnit;
use kt_types_tree::Supertype;

/// Whether a class is another one, or below it, at most so many steps.
#[cycle(below)]
#[tactic(auto, unfolding(kt_meaning::specs::Classes::is_below_within))]
fn is_below_within(unit: &TypedUnit, steps: usize, c: u32, d: u32) -> bool
    ensures { result ≡ spec.is_below_within (unit_form unit.now) steps c d }
{
    if c == d {
        return true;
    }
    if steps == 0 {
        return false;
    }
    is_any_below(unit, steps - 1, unit.headers.hierarchy.supertypes_of(c), d)
}

/// Whether one of several classes is.
#[cycle(below)]
fn is_any_below(unit: &TypedUnit, steps: usize, supertypes: &[Supertype], d: u32) -> bool
    ensures { result ≡ list_any (λ s. spec.is_below_within (unit_form unit.now) steps s.class d)
        (map super_form supertypes.now) }
{
    for above in supertypes {
        if is_below_within(unit, steps, above.class, d) {
            return true;
        }
    }
    false
}

/// Whether a class is another one, or below it by its declared supertypes.
pub fn is_below(unit: &TypedUnit, c: u32, d: u32) -> bool
    ensures { result ≡ spec.is_below (unit_form unit.now) c d }
{
    is_below_within(unit, unit.headers.classes.len(), c, d)
}

/// Whether what is thrown is an object of the class, or of one below.
pub fn fits_catch(unit: &TypedUnit, class: u32, x: &DirectValue) -> bool
    ensures { result ≡ exceptions.fits_catch (unit_form unit.now) class (value_form x.now) }
{
    match x {
        DirectValue::Reference(shape, _) => match shape {
            DirectShape::Instance(c) => is_below(unit, *c, class),
            DirectShape::Numbers | DirectShape::Elements | DirectShape::Variable => false,
        },
        DirectValue::Int(_)
        | DirectValue::Long(_)
        | DirectValue::Truth(_)
        | DirectValue::Character(_)
        | DirectValue::Text(_)
        | DirectValue::Null
        | DirectValue::Unit
        | DirectValue::Entry(_, _)
        | DirectValue::Cell(_)
        | DirectValue::Closure(_, _) => false,
    }
}
