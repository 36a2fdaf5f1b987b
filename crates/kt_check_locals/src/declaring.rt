//! Declarations of locals.

ghost use Rattle.kt_check_deciding.specs.Outcomes.{Outcome, Reading, found, reading, then_go};
ghost use Rattle.kt_check_deciding.specs.Statements as spec;
ghost use Rattle.kt_check_names.specs.Answers.{Reads};
ghost use Rattle.kt_check_names.specs.Views.{declared_in, scope_in, state_of};
ghost use Rattle.kt_check_places.specs.Places.{context_at, state_in};
ghost use Rattle.kt_check_rules.specs.Kinds.{type_of};
ghost use Rattle.kt_check_rules.specs.States as states;
ghost use Rattle.kt_check_rules.specs.States.{Named, assigned, declaring, next_local};
ghost use Rattle.kt_check_rules.specs.Statements as rules;
ghost use Rattle.kt_tree.specs.Types.{type_tree};
ghost use Rattle.kt_typed.specs.Bodies.{ExpressionForm, declare, expression_form, some_expression, statement_form};
ghost use Rattle.kt_typed.specs.Operators.{local_form};
ghost use Rattle.kt_types_tree.specs.Types.{type_form};
ghost use Rattle.std.specs.Prelude.{◌≡◌, [], List, ℕ, IfOk, OnOk, Some, length, map};

use kt_base::{Name, NoMemory, Pos};
use kt_check_names::known::declare;
use kt_check_names::names::meaning;
use kt_check_names::scopes::is_declared_in;
use kt_check_names::{Known, NamedLocal, Why};
use kt_check_places::Place;
use kt_check_places::results::type_shown;
use kt_tree::TypeReference;
use kt_typed::{LocalKind, TypedExpression, TypedStatement, TypedStatementKind};
use kt_types_tree::KtType;
use sqlite_items::{Boxed, Items};
use std::alloc::Global;

/// `var` or `val`.
fn local_kind(is_var: bool) -> LocalKind
    ensures { result ≡ rules.local_kind is_var }
{
    if is_var {
        LocalKind::Var
    } else {
        LocalKind::Val
    }
}

/// Whether the innermost block hasn't declared a name.
pub fn is_free(p: &Place, names: &Items<NamedLocal>, known: &Known, name: &Name) -> bool
    ensures { result ≡ states.is_free name.now (state_in p.now names.now known.now) }
{
    !is_declared_in(names.as_slice(), name)
}

/// A further local that has a value, and its number.
pub fn declare_assigned(
    names: &mut Items<NamedLocal>,
    known: &mut Known,
    name: &Name,
    kind: LocalKind,
    declared: KtType,
) -> Result<u32, NoMemory>
    ensures number { IfOk result (λ n. n ≡ length (map local_form known.old.locals)) }
    ensures state { OnOk result ((outer : List Named) (outside : ℕ) →
        state_of (scope_in names.new outer) (declared_in names.new []) outside known.new
        ≡ assigned (length (map local_form known.old.locals)) (declaring name.now kind (type_form declared)
        (state_of (scope_in names.old outer) (declared_in names.old []) outside known.old))) }
{
    let number = declare(names, known, name, kind, declared)?;
    known.facts.assign(number)?;
    Ok(number)
}

/// The declaration of a local with its initialiser.
pub fn declaration(
    alloc: Global,
    at: Pos,
    number: u32,
    value: TypedExpression,
) -> Result<TypedStatement, NoMemory>
    ensures { IfOk result (λ y. statement_form y ≡ declare at number (some_expression (expression_form value))) }
{
    let value = Boxed::new(alloc, value)?;
    Ok(TypedStatement {
        at,
        kind: TypedStatementKind::Declare(number, Some(value)),
    })
}

/// A local of a type, with an initialiser that was typed.
fn declare_of_type(
    p: &Place,
    at: Pos,
    is_var: bool,
    name: &Name,
    t: KtType,
    value: TypedExpression,
    names: &mut Items<NamedLocal>,
    known: &mut Known,
) -> Result<TypedStatement, Why>
    ensures { Reads statement_form result (state_in p.now names.new known.new)
        (found (reading
        (declare at (next_local (state_in p.now names.old known.old)) (some_expression (expression_form value)))
        (rules.with_value is_var name.now (type_form t) (state_in p.now names.old known.old)))) }
{
    match declare_assigned(names, known, name, local_kind(is_var), t) {
        Ok(number) => Ok(declaration(p.alloc, at, number, value)?),
        Err(_) => {
            drop(value);
            Err(Why::NoMemory)
        }
    }
}

/// A local of a type that is written, whose initialiser meets it.
#[tactic(auto, using(kt_check_places::proofs::Going::goes, kt_check_places::proofs::Going::fails))]
pub fn declare_typed(
    p: &Place,
    at: Pos,
    is_var: bool,
    name: &Name,
    t: KtType,
    value: Result<TypedExpression, Why>,
    names: &mut Items<NamedLocal>,
    known: &mut Known,
) -> Result<TypedStatement, Why>
    ensures { (o : Outcome (Reading ExpressionForm)) →
        Reads expression_form value (state_in p.now names.old known.old) o →
        Reads statement_form result (state_in p.now names.new known.new)
        (then_go o (λ r. found (reading (declare at (next_local r.behind) (some_expression r.value))
        (rules.with_value is_var name.now (type_form t) r.behind)))) }
{
    match value {
        Ok(value) => declare_of_type(p, at, is_var, name, t, value, names, known),
        Err(why) => {
            drop(t);
            Err(why)
        }
    }
}

/// A local of the type of its initialiser, which was typed.
fn declare_of_its_type(
    p: &Place,
    at: Pos,
    is_var: bool,
    name: &Name,
    value: TypedExpression,
    names: &mut Items<NamedLocal>,
    known: &mut Known,
) -> Result<TypedStatement, Why>
    ensures { Reads statement_form result (state_in p.now names.new known.new)
        (found (reading
        (declare at (next_local (state_in p.now names.old known.old)) (some_expression (expression_form value)))
        (rules.with_value is_var name.now (type_of (expression_form value)) (state_in p.now names.old known.old)))) }
{
    match type_shown(&value).copy(p.alloc) {
        Ok(t) => declare_of_type(p, at, is_var, name, t, value, names, known),
        Err(_) => {
            drop(value);
            Err(Why::NoMemory)
        }
    }
}

/// A local of the type of its initialiser.
#[tactic(auto, using(kt_check_places::proofs::Going::goes, kt_check_places::proofs::Going::fails))]
pub fn declare_untyped(
    p: &Place,
    at: Pos,
    is_var: bool,
    name: &Name,
    value: Result<TypedExpression, Why>,
    names: &mut Items<NamedLocal>,
    known: &mut Known,
) -> Result<TypedStatement, Why>
    ensures { (o : Outcome (Reading ExpressionForm)) →
        Reads expression_form value (state_in p.now names.old known.old) o →
        Reads statement_form result (state_in p.now names.new known.new)
        (then_go o (λ r. found (reading (declare at (next_local r.behind) (some_expression r.value))
        (rules.with_value is_var name.now (type_of r.value) r.behind)))) }
{
    match value {
        Ok(value) => declare_of_its_type(p, at, is_var, name, value, names, known),
        Err(why) => Err(why),
    }
}

/// A local of a type, without a value.
fn declare_bare(
    p: &Place,
    at: Pos,
    is_var: bool,
    name: &Name,
    t: KtType,
    names: &mut Items<NamedLocal>,
    known: &mut Known,
) -> Result<TypedStatement, Why>
    ensures { Reads statement_form result (state_in p.now names.new known.new)
        (spec.bare_locals at is_var name.now (Some (type_form t)) (state_in p.now names.old known.old)) }
{
    let number = declare(names, known, name, local_kind(is_var), t)?;
    Ok(TypedStatement {
        at,
        kind: TypedStatementKind::Declare(number, None),
    })
}

/// A local of a type that is written, without a value. It is refused where the block has declared the name already, where
/// no type is written, and where what is written has no meaning.
#[tactic(auto, using(crate::proofs::Locals::bare_is, crate::proofs::Locals::bare_fails))]
pub fn bare_local(
    p: &Place,
    at: Pos,
    is_var: bool,
    name: &Name,
    written: &TypeReference,
    names: &mut Items<NamedLocal>,
    known: &mut Known,
) -> Result<TypedStatement, Why>
    ensures { Reads statement_form result (state_in p.now names.new known.new)
        (spec.bares (context_at p.now) at is_var name.now (Some (type_tree written.now))
        (state_in p.now names.old known.old)) }
{
    if is_free(p, names, known, name) {
        match meaning(p.alloc, p.context, written) {
            Ok(t) => declare_bare(p, at, is_var, name, t, names, known),
            Err(why) => Err(why),
        }
    } else {
        Err(Why::Refused)
    }
}
