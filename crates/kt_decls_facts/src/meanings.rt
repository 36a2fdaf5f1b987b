//! Whether types that are written in a file have a meaning. In each call the facts are those of the file.

ghost use Rattle.kt_decls_facts.specs.Facts.{Knows};
ghost use Rattle.kt_decls_rules.specs.Rules as rules;
ghost use Rattle.kt_decls_rules.specs.Rules.{AreMeant, HasMeaning};
ghost use Rattle.kt_decls_rules.specs.Tables.{hierarchy_of, meant};
ghost use Rattle.kt_tree.specs.Declarations.{constructor_parameter_tree, declaration_tree, supertype_tree, type_parameter_tree, typed_parameter_tree};
ghost use Rattle.kt_tree.specs.Types.{maybe_type, type_tree};
ghost use Rattle.std.specs.List.{flat_map};
ghost use Rattle.std.specs.Prelude.{◌<◌, ◌^◌, ◌↔◌, length, map, IfOk, IsTrue};

use crate::facts::FileFacts;
use kt_base::NoMemory;
use kt_decls_bounds::is_within_bounds;
use kt_decls_hierarchy::supertypes::meaning;
use kt_tree::{
    ConstructorParameter, Declaration, Parameter, Supertype, TypeParameter, TypeReference,
};
use kt_typed::DeclaredTypeParameter;
use std::alloc::Global;

/// Whether a written type has a meaning, with its arguments within their bounds.
pub fn is_meant(
    alloc: Global,
    file: &[Declaration],
    facts: &FileFacts,
    scope: &[DeclaredTypeParameter],
    written: &TypeReference,
) -> Result<bool, NoMemory>
    requires known { Knows (map declaration_tree file.now) facts.now }
    requires few { length scope.now < 2 ^ 32 }
    ensures { IfOk result (λ yes. IsTrue yes ↔ HasMeaning (hierarchy_of (map declaration_tree file.now))
        (meant (map declaration_tree file.now) scope.now (type_tree written.now))) }
{
    let found = meaning(alloc, &facts.classes, scope, written)?;
    match found {
        None => Ok(false),
        Some(meant) => is_within_bounds(alloc, &facts.hierarchy, facts.links.ends, &meant),
    }
}

/// The same of a type that may be left out.
pub fn is_meant_if(
    alloc: Global,
    file: &[Declaration],
    facts: &FileFacts,
    scope: &[DeclaredTypeParameter],
    written: &Option<TypeReference>,
) -> Result<bool, NoMemory>
    requires known { Knows (map declaration_tree file.now) facts.now }
    requires few { length scope.now < 2 ^ 32 }
    ensures { IfOk result (λ yes. IsTrue yes ↔ AreMeant (map declaration_tree file.now) scope.now
        (rules.written (maybe_type written.now))) }
{
    match written {
        None => Ok(true),
        Some(one) => is_meant(alloc, file, facts, scope, one),
    }
}

/// The same of several types.
pub fn are_types_meant(
    alloc: Global,
    file: &[Declaration],
    facts: &FileFacts,
    scope: &[DeclaredTypeParameter],
    written: &[TypeReference],
) -> Result<bool, NoMemory>
    requires known { Knows (map declaration_tree file.now) facts.now }
    requires few { length scope.now < 2 ^ 32 }
    ensures { IfOk result (λ yes. IsTrue yes ↔ AreMeant (map declaration_tree file.now) scope.now
        (map type_tree written.now)) }
{
    for each in written {
        let meant = is_meant(alloc, file, facts, scope, each)?;
        if !meant {
            return Ok(false);
        }
    }
    Ok(true)
}

/// The same of the supertypes of a class.
pub fn are_parents_meant(
    alloc: Global,
    file: &[Declaration],
    facts: &FileFacts,
    scope: &[DeclaredTypeParameter],
    written: &[Supertype],
) -> Result<bool, NoMemory>
    requires known { Knows (map declaration_tree file.now) facts.now }
    requires few { length scope.now < 2 ^ 32 }
    ensures { IfOk result (λ yes. IsTrue yes ↔ AreMeant (map declaration_tree file.now) scope.now
        (map (λ s. s.parent) (map supertype_tree written.now))) }
{
    for each in written {
        let meant = is_meant(alloc, file, facts, scope, &each.parent)?;
        if !meant {
            return Ok(false);
        }
    }
    Ok(true)
}

/// The same of the types of parameters.
pub fn are_parameters_meant(
    alloc: Global,
    file: &[Declaration],
    facts: &FileFacts,
    scope: &[DeclaredTypeParameter],
    written: &[Parameter],
) -> Result<bool, NoMemory>
    requires known { Knows (map declaration_tree file.now) facts.now }
    requires few { length scope.now < 2 ^ 32 }
    ensures { IfOk result (λ yes. IsTrue yes ↔ AreMeant (map declaration_tree file.now) scope.now
        (map (λ p. p.annotation) (map typed_parameter_tree written.now))) }
{
    for each in written {
        let meant = is_meant(alloc, file, facts, scope, &each.annotation)?;
        if !meant {
            return Ok(false);
        }
    }
    Ok(true)
}

/// The same of the types of a constructor's parameters.
pub fn are_constructor_parameters_meant(
    alloc: Global,
    file: &[Declaration],
    facts: &FileFacts,
    scope: &[DeclaredTypeParameter],
    written: &[ConstructorParameter],
) -> Result<bool, NoMemory>
    requires known { Knows (map declaration_tree file.now) facts.now }
    requires few { length scope.now < 2 ^ 32 }
    ensures { IfOk result (λ yes. IsTrue yes ↔ AreMeant (map declaration_tree file.now) scope.now
        (map (λ p. p.annotation) (map constructor_parameter_tree written.now))) }
{
    for each in written {
        let meant = is_meant(alloc, file, facts, scope, &each.annotation)?;
        if !meant {
            return Ok(false);
        }
    }
    Ok(true)
}

/// The same of the bounds of type parameters, where they are written.
pub fn are_bounds_meant(
    alloc: Global,
    file: &[Declaration],
    facts: &FileFacts,
    scope: &[DeclaredTypeParameter],
    written: &[TypeParameter],
) -> Result<bool, NoMemory>
    requires known { Knows (map declaration_tree file.now) facts.now }
    requires few { length scope.now < 2 ^ 32 }
    ensures { IfOk result (λ yes. IsTrue yes ↔ AreMeant (map declaration_tree file.now) scope.now
        (flat_map (λ p. rules.written p.bound) (map type_parameter_tree written.now))) }
{
    for each in written {
        let meant = is_meant_if(alloc, file, facts, scope, &each.bound)?;
        if !meant {
            return Ok(false);
        }
    }
    Ok(true)
}
