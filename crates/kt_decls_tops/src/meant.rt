//! Whether the types in a header have a meaning.

ghost use Rattle.kt_decls_facts.specs.Facts.{Knows};
ghost use Rattle.kt_decls_rules.specs.Rules.{AreMeant, types_of_header};
ghost use Rattle.kt_decls_tops.specs.Parts.{AreHeaderTypesMeant};
ghost use Rattle.kt_tree.specs.Declarations.{class, class_tree, declaration_tree};
ghost use Rattle.std.specs.Prelude.{◌<◌, ◌^◌, ◌↔◌, length, map, IfOk, IsTrue};

use kt_base::NoMemory;
use kt_decls_facts::{
    FileFacts, are_bounds_meant, are_constructor_parameters_meant, are_parents_meant,
    are_types_meant, is_meant_if,
};
use kt_decls_hierarchy::drafts::type_parameters;
use kt_decls_members::functions::are_function_types_meant;
use kt_tree::{ClassDeclaration, Declaration};
use kt_typed::DeclaredTypeParameter;
use std::alloc::Global;

/// Whether the types of the parameters and the supertypes of a class have a meaning.
fn are_class_types_meant(
    alloc: Global,
    file: &[Declaration],
    facts: &FileFacts,
    scope: &[DeclaredTypeParameter],
    declared: &ClassDeclaration,
) -> Result<bool, NoMemory>
    requires known { Knows (map declaration_tree file.now) facts.now }
    requires few { length scope.now < 2 ^ 32 }
    ensures { IfOk result (λ yes. IsTrue yes ↔ AreMeant (map declaration_tree file.now) scope.now
        (types_of_header (class (class_tree declared.now)))) }
{
    let written = declared.parameters.as_slice();
    let parameters = are_constructor_parameters_meant(alloc, file, facts, scope, written)?;
    if parameters {
        are_parents_meant(alloc, file, facts, scope, declared.supertypes.as_slice())
    } else {
        Ok(false)
    }
}

/// Whether the types in a header have a meaning, but for the bounds of its type parameters.
fn are_own_types_meant(
    alloc: Global,
    file: &[Declaration],
    facts: &FileFacts,
    scope: &[DeclaredTypeParameter],
    declaration: &Declaration,
) -> Result<bool, NoMemory>
    requires known { Knows (map declaration_tree file.now) facts.now }
    requires few { length scope.now < 2 ^ 32 }
    ensures { IfOk result (λ yes. IsTrue yes ↔ AreMeant (map declaration_tree file.now) scope.now
        (types_of_header (declaration_tree declaration.now))) }
{
    match declaration {
        Declaration::Function(function) => {
            are_function_types_meant(alloc, file, facts, scope, function)
        }
        Declaration::Class(class) => are_class_types_meant(alloc, file, facts, scope, class),
        Declaration::Interface(interface) => {
            are_types_meant(alloc, file, facts, scope, interface.supertypes.as_slice())
        }
        Declaration::Enum(_) => Ok(true),
        Declaration::Constant(constant) => {
            is_meant_if(alloc, file, facts, scope, &constant.annotation)
        }
    }
}

/// Whether the types in a header have a meaning, with their arguments within their bounds.
pub fn are_header_types_meant(
    alloc: Global,
    file: &[Declaration],
    facts: &FileFacts,
    scope: &[DeclaredTypeParameter],
    declaration: &Declaration,
) -> Result<bool, NoMemory>
    requires known { Knows (map declaration_tree file.now) facts.now }
    requires few { length scope.now < 2 ^ 32 }
    ensures { IfOk result (λ yes. IsTrue yes ↔ AreHeaderTypesMeant (map declaration_tree file.now) scope.now
        (declaration_tree declaration.now)) }
{
    let bounds = are_bounds_meant(alloc, file, facts, scope, type_parameters(declaration))?;
    if bounds {
        are_own_types_meant(alloc, file, facts, scope, declaration)
    } else {
        Ok(false)
    }
}
