//! The rules of supertypes.

ghost use Rattle.kt_decls_classes.specs.Kinds.{all_kinds, kind_seen, named_kind};
ghost use Rattle.kt_decls_facts.specs.Facts.{Knows};
ghost use Rattle.kt_decls_rules.specs.ClassRules as rules;
ghost use Rattle.kt_decls_rules.specs.Tables.{meant, super_meant};
ghost use Rattle.kt_tree.specs.Declarations.{declaration_tree, maybe_super_arguments, supertype_tree};
ghost use Rattle.kt_tree.specs.Types.{type_tree};
ghost use Rattle.kt_types_tree.specs.Hierarchy.{super_form};
ghost use Rattle.std.specs.List.{filter, list_all};
ghost use Rattle.std.specs.Prelude.{◌≡◌, ◌<◌, ◌^◌, length, map, nat_le, option_map, IfOk};

use crate::kinds::{Extension, kind_in};
use kt_base::NoMemory;
use kt_decls_facts::FileFacts;
use kt_decls_hierarchy::supertypes::supertype;
use kt_tree::{Declaration, SuperArguments, Supertype, TypeReference};
use kt_typed::DeclaredTypeParameter;
use std::alloc::Global;

/// What a row may be extended as, where a written type names one.
fn kind_named(kinds: &[Extension], found: &Option<kt_types_tree::Supertype>) -> Extension
    ensures { kind_seen result ≡ named_kind kinds.now (option_map super_form found.now) }
{
    match found {
        Some(found) => kind_in(kinds, found.class),
        None => Extension::Neither,
    }
}

/// How what a type names may be extended.
fn kind_of_written(
    alloc: Global,
    file: &[Declaration],
    facts: &FileFacts,
    kinds: &[Extension],
    scope: &[DeclaredTypeParameter],
    written: &TypeReference,
) -> Result<Extension, NoMemory>
    requires known { Knows (map declaration_tree file.now) facts.now }
    requires kinds { map kind_seen kinds.now ≡ all_kinds (map declaration_tree file.now) }
    requires few { length scope.now < 2 ^ 32 }
    ensures { IfOk result (λ kind. kind_seen kind ≡ rules.kind_of_super (map declaration_tree file.now)
        (super_meant (meant (map declaration_tree file.now) scope.now (type_tree written.now)))) }
{
    let found = supertype(alloc, &facts.classes, scope, written)?;
    Ok(kind_named(kinds, &found))
}

fn are_parentheses(arguments: &Option<SuperArguments>) -> bool
    ensures { result ≡ rules.has_parentheses (maybe_super_arguments arguments.now) }
{
    match arguments {
        Some(_) => true,
        None => false,
    }
}

/// A class is extended with parentheses, an interface without.
fn may_stand(is_called: bool, kind: Extension) -> bool
    ensures { result ≡ rules.may_stand is_called (kind_seen kind) }
{
    match kind {
        Extension::OpenClass => is_called,
        Extension::Interface => !is_called,
        Extension::Neither => false,
    }
}

/// Whether a class may have this supertype.
fn may_extend(
    alloc: Global,
    file: &[Declaration],
    facts: &FileFacts,
    kinds: &[Extension],
    scope: &[DeclaredTypeParameter],
    written: &Supertype,
) -> Result<bool, NoMemory>
    requires known { Knows (map declaration_tree file.now) facts.now }
    requires kinds { map kind_seen kinds.now ≡ all_kinds (map declaration_tree file.now) }
    requires few { length scope.now < 2 ^ 32 }
    ensures { IfOk result (λ may.
        may ≡ rules.may_extend (map declaration_tree file.now) scope.now (supertype_tree written.now)) }
{
    let kind = kind_of_written(alloc, file, facts, kinds, scope, &written.parent)?;
    Ok(may_stand(are_parentheses(&written.arguments), kind))
}

/// Whether a class may have these supertypes.
pub fn may_extend_all(
    alloc: Global,
    file: &[Declaration],
    facts: &FileFacts,
    kinds: &[Extension],
    scope: &[DeclaredTypeParameter],
    written: &[Supertype],
) -> Result<bool, NoMemory>
    requires known { Knows (map declaration_tree file.now) facts.now }
    requires kinds { map kind_seen kinds.now ≡ all_kinds (map declaration_tree file.now) }
    requires few { length scope.now < 2 ^ 32 }
    ensures { IfOk result (λ may. may ≡ list_all (rules.may_extend (map declaration_tree file.now) scope.now)
        (map supertype_tree written.now)) }
{
    for each in written {
        let fine = may_extend(alloc, file, facts, kinds, scope, each)?;
        if !fine {
            return Ok(false);
        }
    }
    Ok(true)
}

/// Whether an interface may have this supertype.
fn may_extend_interface(
    alloc: Global,
    file: &[Declaration],
    facts: &FileFacts,
    kinds: &[Extension],
    scope: &[DeclaredTypeParameter],
    written: &TypeReference,
) -> Result<bool, NoMemory>
    requires known { Knows (map declaration_tree file.now) facts.now }
    requires kinds { map kind_seen kinds.now ≡ all_kinds (map declaration_tree file.now) }
    requires few { length scope.now < 2 ^ 32 }
    ensures { IfOk result (λ may.
        may ≡ rules.may_extend_interface (map declaration_tree file.now) scope.now (type_tree written.now)) }
{
    let kind = kind_of_written(alloc, file, facts, kinds, scope, written)?;
    Ok(may_stand(false, kind))
}

/// Whether an interface may have these supertypes.
pub fn may_extend_interfaces(
    alloc: Global,
    file: &[Declaration],
    facts: &FileFacts,
    kinds: &[Extension],
    scope: &[DeclaredTypeParameter],
    written: &[TypeReference],
) -> Result<bool, NoMemory>
    requires known { Knows (map declaration_tree file.now) facts.now }
    requires kinds { map kind_seen kinds.now ≡ all_kinds (map declaration_tree file.now) }
    requires few { length scope.now < 2 ^ 32 }
    ensures { IfOk result (λ may. may
        ≡ list_all (rules.may_extend_interface (map declaration_tree file.now) scope.now)
        (map type_tree written.now)) }
{
    for each in written {
        let fine = may_extend_interface(alloc, file, facts, kinds, scope, each)?;
        if !fine {
            return Ok(false);
        }
    }
    Ok(true)
}

/// Whether at most one supertype has parentheses.
pub fn has_one_superclass(written: &[Supertype]) -> bool
    ensures { result ≡ nat_le (length (filter rules.is_called (map supertype_tree written.now))) 1 }
{
    let mut count: usize = 0;
    for each in written {
        if are_parentheses(&each.arguments) {
            count += 1;
        }
    }
    count <= 1
}
