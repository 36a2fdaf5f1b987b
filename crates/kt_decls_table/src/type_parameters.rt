//! The type parameters of a declaration.

ghost use Rattle.kt_decls_rules.specs.Names as rules;
ghost use Rattle.kt_decls_rules.specs.Tables as tables;
ghost use Rattle.kt_decls_table.specs.TypeParameters as spec;
ghost use Rattle.kt_decls_table.specs.TypeParameters.{AreTypeParameters, IsFineList};
ghost use Rattle.kt_decls_table.specs.Found.{AnswersWith};
ghost use Rattle.kt_decls_types.specs.Answers.{Answers};
ghost use Rattle.kt_decls_types.specs.Scopes.{class_named};
ghost use Rattle.kt_tree.specs.Declarations.{type_parameter_tree};
ghost use Rattle.kt_tree.specs.Types.{maybe_type};
ghost use Rattle.kt_types_order.specs.Graph.{HasNoCycle};
ghost use Rattle.kt_types_tree.specs.Types.{TypeForm, type_form, shape_form};
ghost use Rattle.std.specs.Prelude.{◌≡◌, ◌<◌, ◌+◌, ◌^◌, ◌↔◌, List, map, length, IfOk, IsTrue};

use kt_base::NoMemory;
use kt_decls_names::TakenNames;
use kt_decls_types::{ClassNames, Unresolved, resolved};
use kt_tree::{TypeParameter, TypeReference};
use kt_typed::DeclaredTypeParameter;
use kt_types_cycles::cycles::has_no_cycle;
use kt_types_tree::{KtType, TypeShape};
use sqlite_items::Items;
use std::alloc::Global;

/// The type parameters of a declaration, and the bound of each: `Any?` where none is written.
#[derive(Drop)]
pub struct TypeParameters {
    pub declared: Items<DeclaredTypeParameter>,
    pub bounds: Items<KtType>,
}

/// The type parameters by their names, numbered from the row.
fn numbered(
    alloc: Global,
    row: u32,
    written: &[TypeParameter],
) -> Result<Items<DeclaredTypeParameter>, NoMemory>
    requires { row + length written.now < 2 ^ 32 }
    ensures names { IfOk result (λ declared. declared ≡ tables.numbered row (map type_parameter_tree written.now)) }
    ensures count { IfOk result (λ declared. length declared ≡ length written.now) }
{
    let mut declared = Items::new(alloc);
    let mut next = row;
    for parameter in written {
        let name = parameter.name.clone()?;
        declared.push(DeclaredTypeParameter { name, row: next })?;
        next += 1;
    }
    Ok(declared)
}

/// The bound that is written, and `Any?` where none is.
fn bound_of(
    alloc: Global,
    classes: &ClassNames,
    scope: &[DeclaredTypeParameter],
    written: &Option<TypeReference>,
) -> Result<KtType, Unresolved>
    requires { length scope.now < 2 ^ 32 }
    ensures { Answers type_form result
        (spec.bound_meant (class_named classes.now) scope.now (maybe_type written.now)) }
{
    match written {
        Some(written) => resolved(alloc, classes, scope, written),
        None => Ok(KtType::any(true)),
    }
}

/// The bounds of all.
#[tactic(auto, using(crate::proofs::Loops::one_more, crate::proofs::Loops::no_more, crate::proofs::Loops::all_done))]
fn bounds_of(
    alloc: Global,
    classes: &ClassNames,
    scope: &[DeclaredTypeParameter],
    written: &[TypeParameter],
) -> Result<Items<KtType>, Unresolved>
    requires { length scope.now < 2 ^ 32 }
    ensures { Answers (map type_form) result
        (spec.bounds_meant (class_named classes.now) scope.now (map type_parameter_tree written.now)) }
{
    let mut done = Items::new(alloc);
    for parameter in written {
        let each = bound_of(alloc, classes, scope, &parameter.bound)?;
        done.push(each)?;
    }
    Ok(done)
}

/// Whether no two have one name.
fn are_apart(alloc: Global, written: &[TypeParameter]) -> Result<bool, NoMemory>
    ensures { IfOk result (λ apart.
        apart ≡ rules.are_distinct (map (λ p. p.name) (map type_parameter_tree written.now))) }
{
    let mut taken = TakenNames::new(alloc);
    for parameter in written {
        if !taken.take_value(&parameter.name)? {
            return Ok(false);
        }
    }
    Ok(true)
}

/// The place of the type parameter that is the bound, with `?` or without.
fn place_of(alloc: Global, bound: &KtType) -> Result<Items<u32>, NoMemory>
    ensures { IfOk result (λ places. places ≡ spec.bound_places (type_form bound.now)) }
{
    let mut places = Items::new(alloc);
    match &bound.shape {
        TypeShape::Parameter(_, place) => places.push(*place)?,
        _ => {}
    }
    Ok(places)
}

/// To which type parameter each leads.
fn places_of(alloc: Global, bounds: &[KtType]) -> Result<Items<Items<u32>>, NoMemory>
    ensures { IfOk result (λ graph. graph ≡ spec.places_of (map type_form bounds.now)) }
{
    let mut graph = Items::new(alloc);
    for bound in bounds {
        graph.push(place_of(alloc, bound)?)?;
    }
    Ok(graph)
}

/// Whether no bound leads back to itself.
fn do_end(alloc: Global, bounds: &[KtType]) -> Result<bool, NoMemory>
    ensures { IfOk result (λ yes. IsTrue yes ↔ HasNoCycle (spec.places_of (map type_form bounds.now))) }
{
    let graph = places_of(alloc, bounds)?;
    has_no_cycle(alloc, graph.as_slice())
}

/// Whether names differ and bounds come to an end.
fn is_fine_list(
    alloc: Global,
    written: &[TypeParameter],
    bounds: &[KtType],
) -> Result<bool, NoMemory>
    ensures { IfOk result (λ yes.
        IsTrue yes ↔ IsFineList (map type_parameter_tree written.now) (map type_form bounds.now)) }
{
    let apart = are_apart(alloc, written)?;
    let end = do_end(alloc, bounds)?;
    Ok(apart && end)
}

/// The type parameters that are written, numbered from the row: `Refused` exactly where a bound has no meaning, two have
/// one name, or bounds lead back to themselves.
pub fn declared_type_parameters(
    alloc: Global,
    classes: &ClassNames,
    row: u32,
    written: &[TypeParameter],
) -> Result<TypeParameters, Unresolved>
    requires { row + length written.now < 2 ^ 32 }
    ensures count { IfOk result (λ ps. length ps.declared < 2 ^ 32) }
    ensures fine { AnswersWith result
        (λ ps. AreTypeParameters (class_named classes.now) row (map type_parameter_tree written.now)
        ps.declared (map type_form ps.bounds))
        ((bounds : List TypeForm) →
        AreTypeParameters (class_named classes.now) row (map type_parameter_tree written.now)
        (tables.numbered row (map type_parameter_tree written.now)) bounds → ⊥) }
{
    let declared = numbered(alloc, row, written)?;
    let bounds = bounds_of(alloc, classes, declared.as_slice(), written)?;
    if is_fine_list(alloc, written, bounds.as_slice())? {
        Ok(TypeParameters { declared, bounds })
    } else {
        Err(Unresolved::Refused)
    }
}
