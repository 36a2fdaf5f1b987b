//! Whether a class has a property of a name from above.

ghost use Rattle.kt_decls_facts.specs.Facts.{Knows};
ghost use Rattle.kt_decls_inherited.specs.Sights as sights;
ghost use Rattle.kt_decls_inherited.specs.Properties as spec;
ghost use Rattle.kt_decls_inherited.specs.Properties.{all_up, properties_up, row_properties};
ghost use Rattle.kt_decls_rules.specs.Members.{constructor_properties, inherited_properties, value_name};
ghost use Rattle.kt_decls_rules.specs.Names.{is_name, taken_by_parameter};
ghost use Rattle.kt_tree.specs.Declarations.{constructor_parameter_tree, declaration_tree};
ghost use Rattle.kt_types_tree.specs.Hierarchy.{hierarchy_form, super_form};
ghost use Rattle.std.specs.List.{flat_map, list_any};
ghost use Rattle.std.specs.Prelude.{◌≡◌, map};

use crate::property_names::has_property_at;
use kt_decls_facts::FileFacts;
use kt_tree::{ConstructorParameter, ConstructorParameterKind, Declaration};
use kt_types_tree::{Hierarchy, Supertype};
use sqlite_items::at;

/// Whether the class in a row declares a property of this name.
fn is_in_row(file: &[Declaration], places: &[usize], name: &[u8], row: u32) -> bool
    ensures { result ≡ list_any (is_name name.now)
        (row_properties (map declaration_tree file.now) places.now row) }
{
    match at(places, row as usize) {
        Some(place) => has_property_at(file, *place, name),
        None => false,
    }
}

/// Whether a class above the one in a row declares a property of this name, within so many steps.
#[cycle(properties)]
fn is_above(
    file: &[Declaration],
    places: &[usize],
    h: &Hierarchy,
    name: &[u8],
    steps: usize,
    row: u32,
) -> bool
    ensures { result ≡ list_any (is_name name.now)
        (properties_up (hierarchy_form h.now) (map declaration_tree file.now) places.now steps row) }
{
    if steps == 0 {
        return false;
    }
    is_in_any(file, places, h, name, steps - 1, h.supertypes_of(row))
}

/// The same by way of several supertypes, their own properties among them.
#[cycle(properties)]
fn is_in_any(
    file: &[Declaration],
    places: &[usize],
    h: &Hierarchy,
    name: &[u8],
    steps: usize,
    supertypes: &[Supertype],
) -> bool
    ensures { result ≡ list_any (is_name name.now)
        (all_up (hierarchy_form h.now) (map declaration_tree file.now) places.now steps
        (map super_form supertypes.now)) }
{
    for supertype in supertypes {
        let row = supertype.class;
        if is_in_row(file, places, name, row) {
            return true;
        }
        if is_above(file, places, h, name, steps, row) {
            return true;
        }
    }
    false
}

/// Whether a class has a property of this name from above.
pub fn is_inherited(
    file: &[Declaration],
    places: &[usize],
    facts: &FileFacts,
    row: u32,
    name: &[u8],
) -> bool
    requires known { Knows (map declaration_tree file.now) facts.now }
    requires places { places.now ≡ sights.places (map declaration_tree file.now) }
    ensures { result ≡ list_any (is_name name.now)
        (inherited_properties (map declaration_tree file.now) row) }
{
    let h = &facts.hierarchy;
    is_above(file, places, h, name, h.classes.len(), row)
}

/// Whether a parameter of a constructor is a property that the class has from above.
fn is_parameter_inherited(
    file: &[Declaration],
    places: &[usize],
    facts: &FileFacts,
    row: u32,
    parameter: &ConstructorParameter,
) -> bool
    requires known { Knows (map declaration_tree file.now) facts.now }
    requires places { places.now ≡ sights.places (map declaration_tree file.now) }
    ensures { result
        ≡ list_any (λ x. list_any (is_name x) (inherited_properties (map declaration_tree file.now) row))
        (flat_map value_name (taken_by_parameter (constructor_parameter_tree parameter.now))) }
{
    match parameter.kind {
        ConstructorParameterKind::Plain => false,
        ConstructorParameterKind::Val => {
            is_inherited(file, places, facts, row, parameter.name.as_bytes())
        }
        ConstructorParameterKind::Var => {
            is_inherited(file, places, facts, row, parameter.name.as_bytes())
        }
    }
}

/// Whether a parameter of a constructor is a property that the class has from above.
pub fn is_one_inherited(
    file: &[Declaration],
    places: &[usize],
    facts: &FileFacts,
    row: u32,
    parameters: &[ConstructorParameter],
) -> bool
    requires known { Knows (map declaration_tree file.now) facts.now }
    requires places { places.now ≡ sights.places (map declaration_tree file.now) }
    ensures { result
        ≡ list_any (λ x. list_any (is_name x) (inherited_properties (map declaration_tree file.now) row))
        (constructor_properties (map constructor_parameter_tree parameters.now)) }
{
    for parameter in parameters {
        if is_parameter_inherited(file, places, facts, row, parameter) {
            return true;
        }
    }
    false
}
