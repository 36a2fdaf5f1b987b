//! The rules of overriding for a function of a class.

ghost use Rattle.kt_decls_facts.specs.Facts.{Knows};
ghost use Rattle.kt_decls_inherited.specs.Sights as sights;
ghost use Rattle.kt_decls_inherited.specs.Sights.{sight_form, types_form};
ghost use Rattle.kt_decls_methods.specs.Overriding.{DoesOverride, OverridesWell};
ghost use Rattle.kt_decls_rules.specs.Members.{signature_of};
ghost use Rattle.kt_decls_rules.specs.Rules.{Ends, IsGrounded};
ghost use Rattle.kt_decls_rules.specs.Tables.{hierarchy_of};
ghost use Rattle.kt_tree.specs.Declarations.{declaration_tree, function_tree};
ghost use Rattle.kt_types_tree.specs.Hierarchy.{hierarchy_form};
ghost use Rattle.std.specs.Prelude.{◌≡◌, ◌<◌, ◌^◌, ◌↔◌, length, map, option_map, IfOk, IsTrue};

use crate::describing::have_one_descriptor;
use crate::grounded::is_grounded;
use crate::overriding::{is_override_owed, overrides_all};
use kt_base::NoMemory;
use kt_decls_facts::FileFacts;
use kt_decls_inherited::{FunctionTypes, Sight, all_sights, function_types};
use kt_tree::{Declaration, FunctionDeclaration, FunctionModifiers};
use kt_typed::DeclaredTypeParameter;
use kt_types_tree::Hierarchy;
use kt_types_tree::equality::is_same_flag;
use std::alloc::Global;

/// Whether `override` stands where there is something to override, and all of it is overridden.
fn does_override(
    h: &Hierarchy,
    ends: bool,
    modifiers: FunctionModifiers,
    types: &Option<FunctionTypes>,
    above: &[Sight],
) -> bool
    requires ends { IsTrue ends ↔ Ends (hierarchy_form h.now) }
    ensures { IsTrue result ↔ DoesOverride (hierarchy_form h.now) modifiers (option_map types_form types.now)
        (map sight_form above.now) }
{
    let owed = is_override_owed(above);
    let fine = overrides_all(h, ends, modifiers.is_suspend, types, above);
    let marked = is_same_flag(modifiers.is_override, owed);
    marked && fine
}

/// Whether a function overrides all that are seen above it, with `override` exactly where there are some.
fn overrides_those(
    alloc: Global,
    file: &[Declaration],
    facts: &FileFacts,
    scope: &[DeclaredTypeParameter],
    function: &FunctionDeclaration,
    above: &[Sight],
) -> Result<bool, NoMemory>
    requires known { Knows (map declaration_tree file.now) facts.now }
    requires few { length scope.now < 2 ^ 32 }
    ensures { IfOk result (λ yes. IsTrue yes ↔ DoesOverride (hierarchy_of (map declaration_tree file.now))
        function.now.modifiers
        (signature_of (map declaration_tree file.now) scope.now (function_tree function.now))
        (map sight_form above.now)) }
{
    let types = function_types(alloc, &facts.classes, scope, function)?;
    Ok(does_override(
        &facts.hierarchy,
        facts.links.ends,
        function.modifiers,
        &types,
        above,
    ))
}

/// Whether a function of a class obeys the rules of overriding.
fn overrides_well(
    alloc: Global,
    file: &[Declaration],
    places: &[usize],
    facts: &FileFacts,
    scope: &[DeclaredTypeParameter],
    row: u32,
    function: &FunctionDeclaration,
) -> Result<bool, NoMemory>
    requires known { Knows (map declaration_tree file.now) facts.now }
    requires places { places.now ≡ sights.places (map declaration_tree file.now) }
    requires few { length scope.now < 2 ^ 32 }
    ensures { IfOk result (λ yes. IsTrue yes
        ↔ OverridesWell (map declaration_tree file.now) row scope.now (function_tree function.now)) }
{
    let name = function.name.as_bytes();
    let count = function.parameters.len();
    let above = all_sights(alloc, file, places, facts, name, count, row)?;
    let fine = overrides_those(alloc, file, facts, scope, function, above.as_slice())?;
    if !fine {
        return Ok(false);
    }
    if above.len() < 2 {
        return Ok(true);
    }
    have_one_descriptor(alloc, file, places, facts, name, count, row)
}

/// The same, which is asked only where no class at or above the function's is above itself.
pub fn is_fine_override(
    alloc: Global,
    file: &[Declaration],
    places: &[usize],
    facts: &FileFacts,
    scope: &[DeclaredTypeParameter],
    row: u32,
    function: &FunctionDeclaration,
) -> Result<bool, NoMemory>
    requires known { Knows (map declaration_tree file.now) facts.now }
    requires places { places.now ≡ sights.places (map declaration_tree file.now) }
    requires few { length scope.now < 2 ^ 32 }
    ensures { IfOk result (λ yes. IsTrue yes ↔ (IsGrounded (hierarchy_of (map declaration_tree file.now)) row
        → OverridesWell (map declaration_tree file.now) row scope.now (function_tree function.now))) }
{
    let grounded = is_grounded(file, facts, row);
    if grounded {
        overrides_well(alloc, file, places, facts, scope, row, function)
    } else {
        Ok(true)
    }
}
