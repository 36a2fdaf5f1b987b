//! Names that differ, and bodies that are there.

ghost use Rattle.kt_decls_rules.specs.Members.{functions_of, is_some_body, method_of};
ghost use Rattle.kt_decls_rules.specs.Names as rules;
ghost use Rattle.kt_tree.specs.Declarations.{constructor_parameter_tree, maybe_function_body, member_tree, type_parameter_tree};
ghost use Rattle.std.specs.List.{flat_map, list_all};
ghost use Rattle.std.specs.Prelude.{◌≡◌, map, IfOk};

use kt_base::NoMemory;
use kt_decls_names::TakenNames;
use kt_tree::{ClassMember, ConstructorParameter, TypeParameter};
use std::alloc::Global;

/// Whether no two type parameters have one name.
pub fn are_type_parameters_distinct(
    alloc: Global,
    parameters: &[TypeParameter],
) -> Result<bool, NoMemory>
    ensures { IfOk result (λ apart.
        apart ≡ rules.are_distinct (map (λ p. p.name) (map type_parameter_tree parameters.now))) }
{
    let mut taken = TakenNames::new(alloc);
    for parameter in parameters {
        if !taken.take_value(&parameter.name)? {
            return Ok(false);
        }
    }
    Ok(true)
}

/// Whether no two parameters of a constructor have one name.
pub fn are_constructor_parameters_distinct(
    alloc: Global,
    parameters: &[ConstructorParameter],
) -> Result<bool, NoMemory>
    ensures { IfOk result (λ apart.
        apart ≡ rules.are_distinct (map (λ p. p.name) (map constructor_parameter_tree parameters.now))) }
{
    let mut taken = TakenNames::new(alloc);
    for parameter in parameters {
        if !taken.take_value(&parameter.name)? {
            return Ok(false);
        }
    }
    Ok(true)
}

/// Whether a member isn't a function without a body.
fn has_own_body(member: &ClassMember) -> bool
    ensures { result ≡ list_all (λ f. is_some_body f.body) (method_of (member_tree member.now)) }
{
    match member {
        ClassMember::Method(function) => function.body.is_some(),
        ClassMember::Property(_) => true,
    }
}

/// Whether each function among the members has a body.
pub fn have_own_bodies(members: &[ClassMember]) -> bool
    ensures { result ≡ list_all (λ f. is_some_body f.body) (flat_map method_of (map member_tree members.now)) }
{
    for member in members {
        if !has_own_body(member) {
            return false;
        }
    }
    true
}
