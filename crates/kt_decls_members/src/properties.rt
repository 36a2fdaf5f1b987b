//! The header of a property of a class.

ghost use Rattle.kt_decls_facts.specs.Facts.{Knows};
ghost use Rattle.kt_decls_inherited.specs.Sights as sights;
ghost use Rattle.kt_decls_rules.specs.ClassRules.{IsFineProperty};
ghost use Rattle.kt_decls_rules.specs.Members.{constructor_properties, inherited_properties};
ghost use Rattle.kt_decls_rules.specs.Names.{Taken, a_value, are_free, is_name};
ghost use Rattle.kt_decls_rules.specs.Rules.{IsGrounded};
ghost use Rattle.kt_decls_rules.specs.Tables.{hierarchy_of};
ghost use Rattle.kt_tree.specs.Declarations.{constructor_parameter_tree, declaration_tree, property_tree};
ghost use Rattle.std.specs.List.{list_any};
ghost use Rattle.std.specs.Prelude.{List, [], ◌∷◌, ◌&&◌, ◌≡◌, ◌<◌, ◌^◌, ◌↔◌, length, map, false, IfOk, IsTrue};

use kt_base::{Name, NoMemory};
use kt_decls_facts::{FileFacts, is_meant};
use kt_decls_inherited::{is_inherited, is_one_inherited};
use kt_decls_methods::is_grounded;
use kt_tree::{ConstructorParameter, Declaration, PropertyDeclaration};
use kt_typed::DeclaredTypeParameter;
use std::alloc::Global;

/// Whether a class has no property of this name from above. It is asked only where no class at or above it is above
/// itself.
fn is_new(file: &[Declaration], places: &[usize], facts: &FileFacts, row: u32, name: &Name) -> bool
    requires known { Knows (map declaration_tree file.now) facts.now }
    requires places { places.now ≡ sights.places (map declaration_tree file.now) }
    ensures { IsTrue result ↔ (IsGrounded (hierarchy_of (map declaration_tree file.now)) row →
        list_any (is_name name.now) (inherited_properties (map declaration_tree file.now) row) ≡ false) }
{
    let grounded = is_grounded(file, facts, row);
    if grounded {
        !is_inherited(file, places, facts, row, name.as_bytes())
    } else {
        true
    }
}

/// Whether a class has none of the properties of its constructor from above. It is asked only where no class at or
/// above it is above itself.
pub fn are_new_parameters(
    file: &[Declaration],
    places: &[usize],
    facts: &FileFacts,
    row: u32,
    parameters: &[ConstructorParameter],
) -> bool
    requires known { Knows (map declaration_tree file.now) facts.now }
    requires places { places.now ≡ sights.places (map declaration_tree file.now) }
    ensures { IsTrue result ↔ (IsGrounded (hierarchy_of (map declaration_tree file.now)) row →
        list_any (λ x. list_any (is_name x) (inherited_properties (map declaration_tree file.now) row))
        (constructor_properties (map constructor_parameter_tree parameters.now)) ≡ false) }
{
    let grounded = is_grounded(file, facts, row);
    if grounded {
        !is_one_inherited(file, places, facts, row, parameters)
    } else {
        true
    }
}

fn all_three(a: bool, b: bool, c: bool) -> bool
    ensures { result ≡ (a && b && c) }
{
    a && b && c
}

/// Whether the header of a property in the body of a class is well formed, where it is told whether its name is free.
pub fn is_fine_property(
    alloc: Global,
    file: &[Declaration],
    places: &[usize],
    facts: &FileFacts,
    scope: &[DeclaredTypeParameter],
    row: u32,
    is_free: bool,
    property: &PropertyDeclaration,
) -> Result<bool, NoMemory>
    requires known { Knows (map declaration_tree file.now) facts.now }
    requires places { places.now ≡ sights.places (map declaration_tree file.now) }
    requires few { length scope.now < 2 ^ 32 }
    ensures { IfOk result (λ yes. (earlier : List Taken) →
        is_free ≡ are_free earlier (a_value property.now.name ∷ []) →
        IsTrue yes ↔ IsFineProperty (map declaration_tree file.now) row scope.now earlier
        (property_tree property.now)) }
{
    let meant = is_meant(alloc, file, facts, scope, &property.annotation)?;
    let fresh = is_new(file, places, facts, row, &property.name);
    Ok(all_three(is_free, meant, fresh))
}
