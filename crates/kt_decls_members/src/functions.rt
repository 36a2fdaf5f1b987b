//! The header of a function of a class or an interface.

ghost use Rattle.kt_decls_facts.specs.Facts.{Knows};
ghost use Rattle.kt_decls_inherited.specs.Sights as sights;
ghost use Rattle.kt_decls_rules.specs.ClassRules.{IsFineMethod};
ghost use Rattle.kt_decls_rules.specs.Names.{Taken, are_free, taken_by_function};
ghost use Rattle.kt_decls_rules.specs.Rules.{AreMeant, types_of_function};
ghost use Rattle.kt_tree.specs.Declarations.{declaration_tree, function_tree};
ghost use Rattle.std.specs.Prelude.{List, [], ◌∷◌, ◌&&◌, ◌≡◌, ◌<◌, ◌^◌, ◌↔◌, length, map, IfOk, IsTrue};

use kt_base::NoMemory;
use kt_decls_facts::{FileFacts, are_parameters_meant, is_meant_if};
use kt_decls_methods::is_fine_override;
use kt_decls_table::are_distinct;
use kt_tree::{Declaration, FunctionDeclaration};
use kt_typed::DeclaredTypeParameter;
use std::alloc::Global;

/// Whether the types of the parameters and the result of a function have a meaning.
pub fn are_function_types_meant(
    alloc: Global,
    file: &[Declaration],
    facts: &FileFacts,
    scope: &[DeclaredTypeParameter],
    function: &FunctionDeclaration,
) -> Result<bool, NoMemory>
    requires known { Knows (map declaration_tree file.now) facts.now }
    requires few { length scope.now < 2 ^ 32 }
    ensures { IfOk result (λ yes. IsTrue yes ↔ AreMeant (map declaration_tree file.now) scope.now
        (types_of_function (function_tree function.now))) }
{
    let parameters = are_parameters_meant(
        alloc,
        file,
        facts,
        scope,
        function.parameters.as_slice(),
    )?;
    if parameters {
        is_meant_if(alloc, file, facts, scope, &function.result)
    } else {
        Ok(false)
    }
}

fn both(a: bool, b: bool) -> bool
    ensures { result ≡ (a && b) }
{
    a && b
}

/// Whether the header of a function of a class is well formed, where it is told whether its name is free.
pub fn is_fine_method(
    alloc: Global,
    file: &[Declaration],
    places: &[usize],
    facts: &FileFacts,
    scope: &[DeclaredTypeParameter],
    row: u32,
    is_free: bool,
    function: &FunctionDeclaration,
) -> Result<bool, NoMemory>
    requires known { Knows (map declaration_tree file.now) facts.now }
    requires places { places.now ≡ sights.places (map declaration_tree file.now) }
    requires few { length scope.now < 2 ^ 32 }
    ensures { IfOk result (λ yes. (earlier : List Taken) →
        is_free ≡ are_free earlier (taken_by_function (function_tree function.now) ∷ []) →
        IsTrue yes ↔ IsFineMethod (map declaration_tree file.now) row scope.now earlier
        (function_tree function.now)) }
{
    let apart = are_distinct(alloc, function.parameters.as_slice())?;
    let named = both(is_free, apart);
    if !named {
        return Ok(false);
    }
    let meant = are_function_types_meant(alloc, file, facts, scope, function)?;
    if !meant {
        return Ok(false);
    }
    is_fine_override(alloc, file, places, facts, scope, row, function)
}
