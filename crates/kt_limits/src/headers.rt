//! Headers: each within limits by itself, with the nodes of its class so far.

ghost use Rattle.kt_limits.specs.Noted.{units_of};
ghost use Rattle.kt_limits.specs.Noting.{fits_constant, is_short};
ghost use Rattle.kt_limits.specs.Parts as spec;
ghost use Rattle.kt_limits.specs.Walking.{headed, step, step_of, walk, walk_headers};
ghost use Rattle.kt_sizes.specs.Capped.{cap};
ghost use Rattle.kt_typed.specs.Headers.{class_form, class_parameter_form, constant_form, function_form, headers_form, parameter_form, property_form};
ghost use Rattle.kt_typed.specs.declared.headers.DeclarationNumber.TheVariants as declaration_number;
ghost use Rattle.std.specs.List.{flat_map, list_all};
ghost use Rattle.std.specs.Prelude.{◌&&◌, ◌++◌, ◌∷◌, ◌≡◌, Bool, List, [], length, map, slice_get, ℕ};

use crate::limits::{MOST_NODES, MOST_PARAMETERS};
use crate::texts::{is_short as is_name_short, parts_fit};
use kt_base::Pos;
use kt_typed::{
    ClassParameter, ConstantLiteral, DeclarationNumber, DeclaredClass, DeclaredConstant,
    DeclaredEntry, DeclaredFunction, DeclaredParameter, DeclaredProperty, DeclaredTypeParameter,
    Headers, MemberNumber,
};
use sqlite_items::at;

/// The nodes of a class so far, with those of one part more; the place of that part where it isn't fine by itself, or
/// where the class has more than 4,000 nodes with it.
pub fn counted(count: u64, nodes: u64, is_fine: bool, place: Pos) -> Result<u64, Pos>
    ensures { (m : ℕ) → nodes ≡ cap m → result ≡ step_of count m is_fine place }
{
    let together = count.saturating_add(nodes);
    if is_fine && together <= MOST_NODES {
        Ok(together)
    } else {
        Err(place)
    }
}

/// A header with so many nodes and parameters, whose identifiers and texts are within limits or not.
#[tactic(auto, unfolding(crate::specs::Walking::step))]
fn header(
    count: u64,
    place: Pos,
    nodes: u64,
    parameters: u64,
    are_short: bool,
    fit: bool,
) -> Result<u64, Pos>
    ensures { (m : ℕ) (names texts : List (List ℕ)) → nodes ≡ cap m → are_short ≡ list_all is_short names →
        fit ≡ list_all fits_constant texts → result ≡ step count (spec.header place m parameters names texts) }
{
    counted(
        count,
        nodes,
        parameters <= MOST_PARAMETERS && are_short && fit,
        place,
    )
}

fn are_type_parameters_short(parameters: &[DeclaredTypeParameter]) -> bool
    ensures { result ≡ list_all is_short (spec.type_parameter_names parameters.now) }
{
    for parameter in parameters {
        if !is_name_short(&parameter.name) {
            return false;
        }
    }
    true
}

fn are_parameters_short(parameters: &[DeclaredParameter]) -> bool
    ensures { result ≡ list_all is_short (map (λ p. p.name) (map parameter_form parameters.now)) }
{
    for parameter in parameters {
        if !is_name_short(&parameter.name) {
            return false;
        }
    }
    true
}

fn are_class_parameters_short(parameters: &[ClassParameter]) -> bool
    ensures { result ≡ list_all is_short (map (λ p. p.name) (map class_parameter_form parameters.now)) }
{
    for parameter in parameters {
        if !is_name_short(&parameter.name) {
            return false;
        }
    }
    true
}

/// The header of a function.
fn function_header(function: &DeclaredFunction, count: u64) -> Result<u64, Pos>
    ensures { result ≡ step count (spec.function_header (function_form function.now)) }
{
    let are_short = is_name_short(&function.name)
        && are_type_parameters_short(function.type_parameters.as_slice())
        && are_parameters_short(function.parameters.as_slice());
    let parameters = function.parameters.len() as u64;
    header(
        count,
        function.at,
        parameters.saturating_add(1),
        parameters,
        are_short,
        true,
    )
}

/// Whether the text of a constant fits a constant of a class file.
fn literal_fits(value: &ConstantLiteral) -> bool
    ensures { result ≡ list_all fits_constant (spec.constant_texts value.now) }
{
    match value {
        ConstantLiteral::Text(parts) => parts_fit(parts.as_slice()),
        ConstantLiteral::Int(_)
        | ConstantLiteral::Long(_)
        | ConstantLiteral::Boolean(_)
        | ConstantLiteral::Char(_) => true,
    }
}

/// The header of a constant.
fn constant_header(constant: &DeclaredConstant, count: u64) -> Result<u64, Pos>
    ensures { result ≡ step count (spec.constant_header (constant_form constant.now)) }
{
    let is_short = is_name_short(&constant.name);
    header(
        count,
        constant.at,
        1,
        0,
        is_short,
        literal_fits(&constant.value),
    )
}

/// The nodes of a parameter of a constructor.
fn parameter_nodes(parameter: &ClassParameter) -> u64
    ensures { result ≡ spec.parameter_nodes (class_parameter_form parameter.now) }
{
    match parameter.property {
        Some(_) => 2,
        None => 1,
    }
}

fn parameters_nodes(parameters: &[ClassParameter]) -> u64
    ensures { result ≡ cap (spec.parameters_nodes (map class_parameter_form parameters.now)) }
{
    let mut nodes = 0;
    for parameter in parameters {
        nodes = u64::saturating_add(nodes, parameter_nodes(parameter));
    }
    nodes
}

/// The header of a class with so many supertypes.
fn class_header(class: &DeclaredClass, supertypes: u64, count: u64) -> Result<u64, Pos>
    ensures { result ≡ step count (spec.class_header supertypes (class_form class.now)) }
{
    let are_short = is_name_short(&class.name)
        && are_type_parameters_short(class.type_parameters.as_slice())
        && are_class_parameters_short(class.parameters.as_slice());
    let nodes = supertypes.saturating_add(parameters_nodes(class.parameters.as_slice()));
    header(
        count,
        class.at,
        nodes,
        class.parameters.len() as u64,
        are_short,
        true,
    )
}

/// An entry of an enum.
fn entry_header(entry: &DeclaredEntry, count: u64) -> Result<u64, Pos>
    ensures { result ≡ step count (spec.entry_header entry.now) }
{
    header(count, entry.at, 1, 0, is_name_short(&entry.name), true)
}

fn entry_headers(entries: &[DeclaredEntry], start: u64) -> Result<u64, Pos>
    ensures { result ≡ walk start (map spec.entry_header entries.now) }
{
    let mut count = start;
    for entry in entries {
        count = entry_header(entry, count)?;
    }
    Ok(count)
}

/// A property of a class body.
fn property_header(property: &DeclaredProperty, count: u64) -> Result<u64, Pos>
    ensures { result ≡ step count (spec.property_header (property_form property.now)) }
{
    header(
        count,
        property.at,
        1,
        0,
        is_name_short(&property.name),
        true,
    )
}

/// A member of a class body.
fn member_header(class: &DeclaredClass, member: MemberNumber, count: u64) -> Result<u64, Pos>
    ensures { result ≡ walk count (spec.member_headers (class_form class.now) member) }
{
    match member {
        MemberNumber::Function(number) => match at(class.functions.as_slice(), number as usize) {
            Some(function) => function_header(function, count),
            None => Ok(count),
        },
        MemberNumber::Property(number) => match at(class.properties.as_slice(), number as usize) {
            Some(property) => property_header(property, count),
            None => Ok(count),
        },
    }
}

fn member_headers(class: &DeclaredClass, start: u64) -> Result<u64, Pos>
    ensures { let c = class_form class.now in result ≡ walk start (flat_map (spec.member_headers c) c.members) }
{
    let mut count = start;
    for member in class.members.as_slice() {
        count = member_header(class, *member, count)?;
    }
    Ok(count)
}

/// A class, its entries and the members of its body.
fn whole_class(class: &DeclaredClass, supertypes: u64) -> Result<u64, Pos>
    ensures { let c = class_form class.now in
        result ≡ walk 0 (spec.class_header supertypes c ∷ map spec.entry_header c.entries
        ++ flat_map (spec.member_headers c) c.members) }
{
    let with_class = class_header(class, supertypes, 0)?;
    let with_entries = entry_headers(class.entries.as_slice(), with_class)?;
    member_headers(class, with_entries)
}

/// The headers of the class in a row of the hierarchy: how many nodes they count for.
pub fn class_headers(headers: &Headers, row: u32) -> Result<u64, Pos>
    ensures { result ≡ walk 0 (spec.declaration_headers (headers_form headers.now) (declaration_number.Class row)) }
{
    let supertypes = headers.hierarchy.supertypes_of(row).len() as u64;
    match at(headers.classes.as_slice(), row as usize) {
        Some(class) => whole_class(class, supertypes),
        None => Ok(0),
    }
}

/// The headers of a declaration, with those of the file so far.
fn declaration_headers(
    headers: &Headers,
    declaration: DeclarationNumber,
    count: u64,
) -> Result<u64, Pos>
    ensures { result ≡ headed (headers_form headers.now) count declaration }
{
    match declaration {
        DeclarationNumber::Function(number) => {
            match at(headers.functions.as_slice(), number as usize) {
                Some(function) => function_header(function, count),
                None => Ok(count),
            }
        }
        DeclarationNumber::Class(row) => {
            class_headers(headers, row)?;
            Ok(count)
        }
        DeclarationNumber::Constant(number) => {
            match at(headers.constants.as_slice(), number as usize) {
                Some(constant) => constant_header(constant, count),
                None => Ok(count),
            }
        }
    }
}

/// The headers of all declarations, each within limits: how many nodes those of the file count for.
pub fn all_headers(headers: &Headers) -> Result<u64, Pos>
    ensures { let h = headers_form headers.now in result ≡ walk_headers h 0 h.order }
{
    let mut count = 0;
    for declaration in headers.order.as_slice() {
        count = declaration_headers(headers, *declaration, count)?;
    }
    Ok(count)
}
