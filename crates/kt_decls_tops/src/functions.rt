//! The rules of functions at top level.

ghost use Rattle.kt_decls_facts.specs.Facts.{Knows};
ghost use Rattle.kt_decls_rules.specs.Members.{result_meant, unit_type};
ghost use Rattle.kt_decls_rules.specs.Rules as rules;
ghost use Rattle.kt_decls_rules.specs.Rules.{IsFineFunction};
ghost use Rattle.kt_decls_tops.specs.Parts.{IsFineMain};
ghost use Rattle.kt_tree.specs.Declarations.{declaration_tree, function_tree};
ghost use Rattle.kt_tree.specs.Types.{maybe_type};
ghost use Rattle.kt_types_tree.specs.Types.{type_form};
ghost use Rattle.std.specs.Prelude.{◌≡◌, ◌||◌, ◌<◌, ◌^◌, ◌↔◌, Some, length, map, option_map, IfOk, IsTrue};

use kt_base::NoMemory;
use kt_decls_facts::FileFacts;
use kt_decls_hierarchy::supertypes::meaning;
use kt_tree::{Declaration, FunctionDeclaration, FunctionModifiers, TypeReference};
use kt_typed::DeclaredTypeParameter;
use kt_types_tree::{KtType, TypeConstructor};
use std::alloc::Global;

/// Whether a type was found that is `Unit`.
fn is_unit(alloc: Global, found: &Option<KtType>) -> bool
    ensures { IsTrue result ↔ (option_map type_form found.now ≡ Some unit_type) }
{
    match found {
        Some(one) => one.is_same(&KtType::plain(alloc, false, TypeConstructor::Unit)),
        None => false,
    }
}

/// Whether the result of a function is `Unit`, which it is also where none is written.
fn has_unit_result(
    alloc: Global,
    file: &[Declaration],
    facts: &FileFacts,
    scope: &[DeclaredTypeParameter],
    written: &Option<TypeReference>,
) -> Result<bool, NoMemory>
    requires known { Knows (map declaration_tree file.now) facts.now }
    requires few { length scope.now < 2 ^ 32 }
    ensures { IfOk result (λ yes. IsTrue yes
        ↔ (result_meant (map declaration_tree file.now) scope.now (maybe_type written.now) ≡ Some unit_type)) }
{
    match written {
        None => Ok(true),
        Some(one) => {
            let found = meaning(alloc, &facts.classes, scope, one)?;
            Ok(is_unit(alloc, &found))
        }
    }
}

/// Whether the function is `main`, which has no parameters.
fn is_main(function: &FunctionDeclaration) -> bool
    ensures { result ≡ rules.is_main (function_tree function.now) }
{
    function.name.as_bytes() == b"main".as_slice() && function.parameters.len() == 0
}

/// Whether a function that is `main` has no type parameters and the result `Unit`.
fn is_fine_main(
    alloc: Global,
    file: &[Declaration],
    facts: &FileFacts,
    scope: &[DeclaredTypeParameter],
    function: &FunctionDeclaration,
) -> Result<bool, NoMemory>
    requires known { Knows (map declaration_tree file.now) facts.now }
    requires few { length scope.now < 2 ^ 32 }
    ensures { IfOk result (λ yes. IsTrue yes
        ↔ IsFineMain (map declaration_tree file.now) scope.now (function_tree function.now)) }
{
    let main = is_main(function);
    if !main {
        return Ok(true);
    }
    if function.type_parameters.len() == 0 {
        has_unit_result(alloc, file, facts, scope, &function.result)
    } else {
        Ok(false)
    }
}

fn is_marked(modifiers: FunctionModifiers) -> bool
    ensures { result ≡ (modifiers.is_override || modifiers.is_open || modifiers.is_abstract) }
{
    modifiers.is_override || modifiers.is_open || modifiers.is_abstract
}

/// Whether a function at top level obeys the rules of such functions.
pub fn is_fine_function(
    alloc: Global,
    file: &[Declaration],
    facts: &FileFacts,
    scope: &[DeclaredTypeParameter],
    function: &FunctionDeclaration,
) -> Result<bool, NoMemory>
    requires known { Knows (map declaration_tree file.now) facts.now }
    requires few { length scope.now < 2 ^ 32 }
    ensures { IfOk result (λ yes. IsTrue yes
        ↔ IsFineFunction (map declaration_tree file.now) scope.now (function_tree function.now)) }
{
    let marked = is_marked(function.modifiers);
    if marked {
        Ok(false)
    } else {
        is_fine_main(alloc, file, facts, scope, function)
    }
}
