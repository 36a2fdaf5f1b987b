//! Which body a call on an object finds: that of its class, or of the nearest superclass that has one.

ghost use Rattle.kt_meaning.specs.Classes as spec;
ghost use Rattle.kt_typed.specs.Headers.{function_form};
ghost use Rattle.kt_typed.specs.Units.{unit_form};
ghost use Rattle.std.specs.List.{position_from};
ghost use Rattle.std.specs.Prelude.{◌≡◌, ◌+◌, ◌<◌, ◌^◌, length, map, option_and_then, option_map, slice_get};

use kt_direct_classes::superclass_of;
use kt_typed::{DeclaredFunction, TypedUnit};
use kt_types_tree::ClassKind;
use sqlite_items::at;

/// Whether a function has this name, this number of parameters, and a body.
fn is_member(function: &DeclaredFunction, name: &[u8], count: usize) -> bool
    ensures { result ≡ spec.is_member name.now count (function_form function.now) }
{
    if !function.has_body {
        return false;
    }
    function.name.as_bytes() == name && function.parameters.len() == count
}

/// The place of the first such function, the places before these counted.
fn place_among(
    functions: &[DeclaredFunction],
    name: &[u8],
    count: usize,
    before: usize,
) -> Option<usize>
    requires { before + length functions.now < 2 ^ 64 }
    ensures { result ≡ position_from (spec.is_member name.now count) before (map function_form functions.now) }
{
    match functions {
        [] => None,
        [first, rest @ ..] => {
            if is_member(first, name, count) {
                Some(before)
            } else {
                place_among(rest, name, count, before + 1)
            }
        }
    }
}

/// The place of the function of a class with this name, this number of parameters, and a body.
fn own_place(unit: &TypedUnit, name: &[u8], count: usize, c: u32) -> Option<usize>
    ensures { result ≡ option_and_then
        (λ k. position_from (spec.is_member name.now count) 0 k.functions) (spec.class_at (unit_form unit.now) c) }
{
    match at(unit.headers.classes.as_slice(), c as usize) {
        Some(class) => place_among(class.functions.as_slice(), name, count, 0),
        None => None,
    }
}

/// The class, and the place there, of its own function with this name, this number of parameters, and a body.
pub fn own_body(unit: &TypedUnit, name: &[u8], count: usize, c: u32) -> Option<(u32, usize)>
    ensures { result ≡ spec.own_body (unit_form unit.now) name.now count c }
{
    match own_place(unit, name, count, c) {
        Some(place) => Some((c, place)),
        None => None,
    }
}

/// The body that a class has, or one of its superclasses, at most so many steps up.
#[tactic(auto, unfolding(kt_meaning::specs::Classes::upwards))]
fn body_upwards(
    unit: &TypedUnit,
    name: &[u8],
    count: usize,
    steps: usize,
    c: u32,
) -> Option<(u32, usize)>
    ensures { let u = unit_form unit.now in result ≡ spec.first_body u name.now count (spec.upwards u steps c) }
{
    if steps == 0 {
        return None;
    }
    match own_body(unit, name, count, c) {
        Some(found) => Some(found),
        None => match superclass_of(unit, c) {
            Some(above) => body_upwards(unit, name, count, steps - 1, above),
            None => None,
        },
    }
}

/// The class and the place there of the body that runs on an object of a class.
pub fn body_for(unit: &TypedUnit, name: &[u8], count: usize, c: u32) -> Option<(u32, usize)>
    ensures { result ≡ spec.body_for (unit_form unit.now) name.now count c }
{
    body_upwards(unit, name, count, unit.headers.classes.len(), c)
}

/// Whether a class is a data class.
pub fn is_data(unit: &TypedUnit, c: u32) -> bool
    ensures { result ≡ spec.is_data (unit_form unit.now) c }
{
    match at(unit.headers.classes.as_slice(), c as usize) {
        Some(class) => is_data_kind(class.kind),
        None => false,
    }
}

fn is_data_kind(kind: ClassKind) -> bool
    ensures { result ≡ spec.is_data_kind kind }
{
    match kind {
        ClassKind::DataClass => true,
        ClassKind::Class | ClassKind::Interface | ClassKind::Enum => false,
    }
}

/// The declaration of a function of a class.
pub fn declaration(unit: &TypedUnit, c: u32, place: u32) -> Option<&DeclaredFunction>
    ensures { option_map (λ f. function_form f.now) result
        ≡ option_and_then (λ k. slice_get k.functions place) (spec.class_at (unit_form unit.now) c) }
{
    match at(unit.headers.classes.as_slice(), c as usize) {
        Some(class) => at(class.functions.as_slice(), place as usize),
        None => None,
    }
}
