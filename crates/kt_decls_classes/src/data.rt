//! The rules of data classes.

ghost use Rattle.kt_decls_classes.specs.Data.{is_data_shape};
ghost use Rattle.kt_decls_facts.specs.Facts.{Knows};
ghost use Rattle.kt_decls_rules.specs.ClassRules as rules;
ghost use Rattle.kt_decls_rules.specs.Tables.{hierarchy_of, meant};
ghost use Rattle.kt_tree.specs.Declarations.{class_tree, constructor_parameter_tree, declaration_tree};
ghost use Rattle.kt_tree.specs.Types.{type_tree};
ghost use Rattle.kt_types.specs.Kinds.{equatable, printable};
ghost use Rattle.kt_types_tree.specs.Hierarchy.{hierarchy_form};
ghost use Rattle.kt_types_tree.specs.Types.{type_form};
ghost use Rattle.std.specs.List.{list_all};
ghost use Rattle.std.specs.Prelude.{◌≡◌, ◌&&◌, ◌<◌, ◌^◌, ◌↔◌, length, map, option_map, IfOk, IsTrue};

use kt_base::NoMemory;
use kt_decls_facts::FileFacts;
use kt_decls_hierarchy::supertypes::meaning;
use kt_tree::{ClassDeclaration, ConstructorParameter, ConstructorParameterKind, Declaration};
use kt_typed::DeclaredTypeParameter;
use kt_types::kinds::{is_equatable, is_printable};
use kt_types_tree::{Hierarchy, KtType};
use std::alloc::Global;

fn is_property(kind: ConstructorParameterKind) -> bool
    ensures { result ≡ rules.is_property kind }
{
    match kind {
        ConstructorParameterKind::Plain => false,
        ConstructorParameterKind::Val => true,
        ConstructorParameterKind::Var => true,
    }
}

/// Whether each parameter declares a property.
fn are_properties(parameters: &[ConstructorParameter]) -> bool
    ensures { result
        ≡ list_all (λ p. rules.is_property p.kind) (map constructor_parameter_tree parameters.now) }
{
    for parameter in parameters {
        if !is_property(parameter.kind) {
            return false;
        }
    }
    true
}

/// Whether values of the type are printed and compared.
fn has_both(h: &Hierarchy, t: &KtType) -> bool
    ensures { result ≡ (printable (hierarchy_form h.now) (type_form t.now)
        && equatable (hierarchy_form h.now) (type_form t.now)) }
{
    is_printable(h, t) && is_equatable(h, t)
}

/// The same of what a type means; a type without a meaning is blamed elsewhere.
fn has_text(h: &Hierarchy, found: &Option<KtType>) -> bool
    ensures { IsTrue result ↔ rules.IsMeantText (hierarchy_form h.now) (option_map type_form found.now) }
{
    match found {
        Some(one) => has_both(h, one),
        None => true,
    }
}

fn is_text(
    alloc: Global,
    file: &[Declaration],
    facts: &FileFacts,
    scope: &[DeclaredTypeParameter],
    parameter: &ConstructorParameter,
) -> Result<bool, NoMemory>
    requires known { Knows (map declaration_tree file.now) facts.now }
    requires few { length scope.now < 2 ^ 32 }
    ensures { IfOk result (λ yes. IsTrue yes ↔ rules.IsMeantText (hierarchy_of (map declaration_tree file.now))
        (meant (map declaration_tree file.now) scope.now (type_tree parameter.now.annotation))) }
{
    let found = meaning(alloc, &facts.classes, scope, &parameter.annotation)?;
    Ok(has_text(&facts.hierarchy, &found))
}

/// Whether the values of each parameter are printed and compared.
fn are_texts(
    alloc: Global,
    file: &[Declaration],
    facts: &FileFacts,
    scope: &[DeclaredTypeParameter],
    parameters: &[ConstructorParameter],
) -> Result<bool, NoMemory>
    requires known { Knows (map declaration_tree file.now) facts.now }
    requires few { length scope.now < 2 ^ 32 }
    ensures { IfOk result (λ yes. IsTrue yes ↔ rules.HaveText (map declaration_tree file.now) scope.now
        (map constructor_parameter_tree parameters.now)) }
{
    for parameter in parameters {
        let fine = is_text(alloc, file, facts, scope, parameter)?;
        if !fine {
            return Ok(false);
        }
    }
    Ok(true)
}

/// Whether a data class breaks no rule that is told without its types.
fn is_plain_data(class: &ClassDeclaration) -> bool
    ensures { result ≡ is_data_shape (class_tree class.now) }
{
    !class.modifiers.is_open
        && !class.modifiers.is_abstract
        && class.parameters.len() >= 1
        && are_properties(class.parameters.as_slice())
}

/// Whether a data class obeys the rules of data classes.
pub fn is_fine_data(
    alloc: Global,
    file: &[Declaration],
    facts: &FileFacts,
    scope: &[DeclaredTypeParameter],
    class: &ClassDeclaration,
) -> Result<bool, NoMemory>
    requires known { Knows (map declaration_tree file.now) facts.now }
    requires few { length scope.now < 2 ^ 32 }
    ensures { IfOk result (λ yes. IsTrue yes
        ↔ rules.IsFineData (map declaration_tree file.now) scope.now (class_tree class.now)) }
{
    let plain = is_plain_data(class);
    if plain {
        are_texts(alloc, file, facts, scope, class.parameters.as_slice())
    } else {
        Ok(false)
    }
}
