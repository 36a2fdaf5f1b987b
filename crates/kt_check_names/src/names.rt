//! What the names of values and of types mean.

ghost use Rattle.kt_check_deciding.specs.Outcomes.{found, there};
ghost use Rattle.kt_decls_types.specs.Answers.{Resolves};
ghost use Rattle.kt_typed.specs.Bodies.{constant};
ghost use Rattle.kt_check_names.specs.Answers.{Answers};
ghost use Rattle.kt_check_names.specs.Views.{candidates_form, context_form, scope_of, state_form};
ghost use Rattle.kt_check_rules.specs.Names as spec;
ghost use Rattle.kt_check_rules.specs.Names.{reading_of, types_of_local};
ghost use Rattle.kt_check_rules.specs.States as states;
ghost use Rattle.kt_flow.specs.Rows.{facts_form};
ghost use Rattle.kt_tree.specs.Types.{type_tree};
ghost use Rattle.kt_typed.specs.Headers.{constant_form};
ghost use Rattle.kt_typed.specs.Operators.{local_form};
ghost use Rattle.kt_types_tree.specs.Types.{TypeForm, type_form};
ghost use Rattle.std.specs.Prelude.{◌≡◌, ◌∷◌, [], ℕ, IfOk, Option, map, slice_get};

use crate::context::BodyContext;
use crate::known::{Known, number_of};
use crate::purposes::Candidates;
use crate::scopes::{Frames, local_named};
use crate::why::Why;
use kt_base::{Name, NoMemory};
use kt_decls_types::{Unresolved, resolved};
use kt_flow::Facts;
use kt_tree::TypeReference;
use kt_typed::{Headers, LocalKind, TypedKind, TypedLocal};
use kt_types_tree::KtType;
use kt_types_tree::copying::copy_all;
use sqlite_items::{Items, at};
use std::alloc::Global;

/// Whether a local has facts: a `var` has none.
pub fn is_stable(kind: LocalKind) -> bool
    ensures { result ≡ spec.is_stable kind }
{
    match kind {
        LocalKind::Var => false,
        LocalKind::Parameter => true,
        LocalKind::Val => true,
        LocalKind::LoopVariable => true,
        LocalKind::CaughtException => true,
    }
}

/// The types that a local may have: the declared one, then its facts in the order learnt.
fn types_of(
    alloc: Global,
    local: &TypedLocal,
    facts: &Facts,
    number: u32,
) -> Result<Items<KtType>, NoMemory>
    ensures { IfOk result (λ ts. map type_form ts ≡
        types_of_local (local_form local.now) (facts_form facts.now) number) }
{
    let mut types = Items::new(alloc);
    types.push(local.declared.copy(alloc)?)?;
    if is_stable(local.kind) {
        types.append(copy_all(alloc, facts.types_of(number))?)?;
    }
    Ok(types)
}

/// A local that is read. It is refused where it isn't surely assigned.
fn local_read(alloc: Global, known: &Known, number: u32) -> Result<Candidates, Why>
    ensures { Answers candidates_form result (there (reading_of number
        (slice_get (map local_form known.now.locals) number) (facts_form known.now.facts))) }
{
    match at(known.locals.as_slice(), number as usize) {
        None => Err(Why::Refused),
        Some(local) => {
            if known.facts.is_surely_assigned(number) {
                let types = types_of(alloc, local, &known.facts, number)?;
                Ok(Candidates {
                    kind: TypedKind::Local(number),
                    types,
                })
            } else {
                Err(Why::Refused)
            }
        }
    }
}

/// One type.
pub fn one_type(alloc: Global, t: KtType) -> Result<Items<KtType>, NoMemory>
    ensures { IfOk result (λ ts. map type_form ts ≡ type_form t ∷ []) }
{
    let mut types = Items::new(alloc);
    types.push(t)?;
    Ok(types)
}

/// A constant, by its number.
fn constant_read(alloc: Global, number: usize, t: &KtType) -> Result<Candidates, Why>
    ensures { Answers candidates_form result (found (constant (type_form t.now) number ∷ [])) }
{
    let number = number_of(number)?;
    let types = one_type(alloc, t.copy(alloc)?)?;
    Ok(Candidates {
        kind: TypedKind::Constant(number),
        types,
    })
}

/// The constant that a name means.
fn constant_named(alloc: Global, headers: &Headers, name: &Name) -> Result<Candidates, Why>
    ensures { Answers candidates_form result
        (there (spec.constant_named 0 (map constant_form headers.now.constants) name.now)) }
{
    let mut number = 0;
    for each in headers.constants.as_slice() {
        if each.name == *name {
            return constant_read(alloc, number, &each.annotation);
        }
        number += 1;
    }
    Err(Why::Refused)
}

/// What a name of a value means: a local, else a constant.
pub fn named(
    alloc: Global,
    c: &BodyContext,
    frames: &Frames,
    known: &Known,
    name: &Name,
) -> Result<Candidates, Why>
    ensures { (outside : ℕ) → Answers candidates_form result
        (there (spec.named (context_form c.now) (state_form frames.now outside known.now)
        (states.local_named (scope_of frames.now) name.now) name.now)) }
{
    match local_named(frames, name) {
        Some(number) => local_read(alloc, known, number),
        None => constant_named(alloc, c.headers, name),
    }
}

/// The same in another type of errors.
fn told(answer: Result<KtType, Unresolved>) -> Result<KtType, Why>
    ensures { (o : Option TypeForm) → Resolves answer o → Answers type_form result (there o) }
{
    match answer {
        Ok(t) => Ok(t),
        Err(Unresolved::Refused) => Err(Why::Refused),
        Err(Unresolved::NoMemory) => Err(Why::NoMemory),
    }
}

/// What a type that is written means.
pub fn meaning(alloc: Global, c: &BodyContext, written: &TypeReference) -> Result<KtType, Why>
    ensures { Answers type_form result (there (states.meaning (context_form c.now) (type_tree written.now))) }
{
    if c.type_parameters.len() < 4294967296 {
        told(resolved(alloc, c.classes, c.type_parameters, written))
    } else {
        Err(Why::NoMemory)
    }
}
