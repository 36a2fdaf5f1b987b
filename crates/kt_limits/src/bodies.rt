//! Direct statements: each within limits by itself, with the weight of its body and the nodes of its class so far.

ghost use Rattle.kt_limits.specs.Limits.{local_names, locals_of};
ghost use Rattle.kt_limits.specs.Noted.{noted_in_statement};
ghost use Rattle.kt_limits.specs.Noting.{is_short, seen};
ghost use Rattle.kt_limits.specs.Parts.{statement_place};
ghost use Rattle.kt_limits.specs.Walking as spec;
ghost use Rattle.kt_limits.specs.Walking.{State, is_light_with, begun, body_parts, class_parts, constructed, kept, maybe_parts, members_behind, method_parts, next_parts, next_rest, next_state, part_behind, parts_behind, rest_of, state_of, stated, stepped, walk, walk_statements};
ghost use Rattle.kt_sizes.specs.Capped.{cap, capped};
ghost use Rattle.kt_sizes.specs.Counting.{sizes_of_statement};
ghost use Rattle.kt_typed.specs.Bodies.{FunForm, StatementForm, fun_form, statement_form, statements_of};
ghost use Rattle.kt_typed.specs.declared.headers.MemberNumber.{MemberNumber};
ghost use Rattle.kt_typed.specs.Headers.{class_form};
ghost use Rattle.kt_typed.specs.Operators.{local_form};
ghost use Rattle.kt_typed.specs.Units.{class_bodies, maybe_fun, unit_form};
ghost use Rattle.std.specs.List.{list_all, slice_range};
ghost use Rattle.std.specs.Prelude.{[], ◌≡◌, ◌∷◌, Err, List, MatchResult, Ok, Option, Some, map, min, slice_get, ℕ};

use crate::headers::{class_headers, counted};
use crate::limits::MOST_WEIGHT;
use crate::notes::{Notes, both};
use crate::noting::statement_notes;
use crate::so_far::SoFar;
use crate::texts::are_short;
use kt_base::Pos;
use kt_sizes::Sizes;
use kt_sizes::counting::statement_sizes;
use kt_typed::{
    DeclarationNumber, DeclaredClass, MemberNumber, TypedClass, TypedFun, TypedLocal,
    TypedStatement, TypedStatementKind, TypedUnit,
};
use sqlite_items::at;

/// The place of a statement.
fn place_of(statement: &TypedStatement) -> Pos
    ensures { result ≡ statement_place (statement_form statement.now) }
{
    match &statement.kind {
        TypedStatementKind::Declare(_, _)
        | TypedStatementKind::Assign(_, _, _)
        | TypedStatementKind::Step(_, _, _)
        | TypedStatementKind::While(_, _)
        | TypedStatementKind::DoWhile(_, _)
        | TypedStatementKind::For(_, _, _, _, _)
        | TypedStatementKind::Evaluate(_)
        | TypedStatementKind::Superclass(_)
        | TypedStatementKind::Initialize(_, _)
        | TypedStatementKind::Result(_)
        | TypedStatementKind::End => statement.at,
    }
}

/// The lesser of a count and a length.
fn least(count: u64, length: usize) -> usize
    ensures { result ≡ min count length }
{
    if count < length as u64 {
        count as usize
    } else {
        length
    }
}

/// Whether the names of the locals from one number up to another are short.
#[tactic(auto, using(crate::proofs::Ranges::same_range))]
fn are_between_short(locals: &[TypedLocal], from: u64, to: u64) -> bool
    ensures { (m n : ℕ) → from ≡ cap m → to ≡ cap n →
        result ≡ list_all is_short (local_names (slice_range (map local_form locals.now) m n)) }
{
    let end = least(to, locals.len());
    let begin = least(from, end);
    are_short(&locals[begin..end])
}

/// Whether the names of the locals of a body from one number up to another are short.
fn are_locals_short(body: &TypedFun, from: u64, to: u64) -> bool
    ensures { (m n : ℕ) → from ≡ cap m → to ≡ cap n →
        result ≡ list_all is_short (local_names (slice_range (locals_of (fun_form body.now)) m n)) }
{
    are_between_short(body.locals.as_slice(), from, to)
}

/// Whether a body that has come so far has at most the greatest weight.
#[tactic(auto, unfolding(crate::specs::Walking::kept))]
fn is_light(body: &TypedFun, so_far: SoFar) -> bool
    ensures { (s : State) → so_far ≡ kept s → result ≡ is_light_with (fun_form body.now) s }
{
    let locals = least(so_far.locals, body.locals.len()) as u64;
    let weight = so_far.sizes.weight(
        body.captures.len() as u64,
        u64::from(body.parameters),
        locals,
    );
    weight <= MOST_WEIGHT
}

/// What a body has with one statement more.
#[tactic(auto, unfolding(crate::specs::Walking::kept))]
fn behind(before: SoFar, sizes: Sizes, notes: Notes) -> SoFar
    ensures { (s : State) (x : StatementForm) → before ≡ kept s → sizes ≡ capped (sizes_of_statement x) →
        notes ≡ seen (noted_in_statement x) → result ≡ kept (spec.behind s x) }
{
    SoFar {
        sizes: before.sizes.beside(sizes),
        locals: before.locals.saturating_add(notes.locals),
    }
}

/// Whether a direct statement is within limits by itself, with the weight of its body behind it.
fn is_fine_statement(body: &TypedFun, before: SoFar, so_far: SoFar, notes: Notes) -> bool
    ensures { (s : State) (x : StatementForm) → before ≡ kept s → so_far ≡ kept (spec.behind s x) →
        notes ≡ seen (noted_in_statement x) → result ≡ spec.is_fine (part_behind (fun_form body.now) s x) }
{
    let is_light = is_light(body, so_far);
    let are_short = are_locals_short(body, before.locals, so_far.locals);
    both(is_light, both(are_short, notes.are_fine))
}

/// A direct statement of a body, behind others of it.
fn statement_part(
    body: &TypedFun,
    before: SoFar,
    statement: &TypedStatement,
    count: u64,
) -> Result<(SoFar, u64), Pos>
    ensures { (s : State) → before ≡ kept s →
        result ≡ stepped (fun_form body.now) s (statement_form statement.now) count }
{
    let sizes = statement_sizes(statement);
    let notes = statement_notes(statement);
    let so_far = behind(before, sizes, notes);
    let is_fine = is_fine_statement(body, before, so_far, notes);
    match counted(count, sizes.nodes, is_fine, place_of(statement)) {
        Ok(nodes) => Ok((so_far, nodes)),
        Err(place) => Err(place),
    }
}

/// What a body has before its statements.
#[tactic(auto, unfolding(crate::specs::Walking::kept, kt_sizes::specs::Capped::capped))]
fn beginning(body: &TypedFun) -> SoFar
    ensures { result ≡ kept (begun (fun_form body.now)) }
{
    SoFar {
        sizes: Sizes::nothing(),
        locals: u64::from(body.parameters),
    }
}

/// Direct statements of a body, from the first one on.
fn first_statements(body: &TypedFun, statements: &[TypedStatement], start: u64) -> Result<u64, Pos>
    ensures { let f = fun_form body.now in
        result ≡ walk start (parts_behind f (begun f) (statements_of (map statement_form statements.now))) }
{
    let mut so_far = beginning(body);
    let mut count = start;
    for statement in statements {
        match statement_part(body, so_far, statement, count) {
            Ok((behind, nodes)) => {
                so_far = behind;
                count = nodes;
            }
            Err(place) => return Err(place),
        }
    }
    Ok(count)
}

/// The direct statements of a body.
fn body_statements(body: &TypedFun, start: u64) -> Result<u64, Pos>
    ensures { result ≡ walk start (body_parts (fun_form body.now)) }
{
    first_statements(body, body.statements.as_slice(), start)
}

/// The direct statements of a body, where there is one.
fn maybe_statements(body: &Option<TypedFun>, count: u64) -> Result<u64, Pos>
    ensures { result ≡ walk count (maybe_parts (maybe_fun body.now)) }
{
    match body {
        Some(there) => body_statements(there, count),
        None => Ok(count),
    }
}

/// The direct statements of a function of a class.
fn method_statements(bodies: &[Option<TypedFun>], number: u32, count: u64) -> Result<u64, Pos>
    ensures { result ≡ walk count (method_parts (slice_get (map maybe_fun bodies.now) number)) }
{
    match at(bodies, number as usize) {
        Some(body) => maybe_statements(body, count),
        None => Ok(count),
    }
}

/// What a constructor has before its statements.
#[tactic(auto, unfolding(crate::specs::Walking::kept, kt_sizes::specs::Capped::capped))]
fn constructor_beginning(constructor: &Option<TypedFun>) -> SoFar
    ensures { result ≡ kept (state_of (maybe_fun constructor.now)) }
{
    match constructor {
        Some(body) => beginning(body),
        None => SoFar {
            sizes: Sizes::nothing(),
            locals: 0,
        },
    }
}

/// The statements of a constructor.
fn constructor_statements(constructor: &Option<TypedFun>) -> &[TypedStatement]
    ensures { statements_of (map statement_form result.now) ≡ rest_of (maybe_fun constructor.now) }
{
    match constructor {
        Some(body) => body.statements.as_slice(),
        None => &[],
    }
}

/// A constructor behind some of its statements, and the nodes of its class so far.
#[derive(Clone, Copy)]
struct Constructing<'a> {
    so_far: SoFar,
    rest: &'a [TypedStatement],
    count: u64,
}

/// The next statement of a constructor, where one is left.
#[tactic(auto, using(crate::proofs::Steps::next_on, crate::proofs::Steps::next_stops))]
fn next_statement<'a>(
    constructor: &Option<TypedFun>,
    before: Constructing<'a>,
) -> Result<Constructing<'a>, Pos>
    ensures { let f = maybe_fun constructor.now in let xs = statements_of (map statement_form before.entry.rest.now) in
        (s : State) → before.entry.so_far ≡ kept s →
        MatchResult result (λ r. (walk before.entry.count (next_parts f s xs) ≡ Ok r.count)
        × (r.so_far ≡ kept (next_state f s xs))
        × (statements_of (map statement_form r.rest.now) ≡ next_rest f xs))
        (λ p. walk before.entry.count (next_parts f s xs) ≡ Err p) }
{
    match constructor {
        Some(body) => match before.rest {
            [statement, rest @ ..] => {
                match statement_part(body, before.so_far, statement, before.count) {
                    Ok((so_far, count)) => Ok(Constructing {
                        so_far,
                        rest,
                        count,
                    }),
                    Err(place) => Err(place),
                }
            }
            [] => Ok(before),
        },
        None => Ok(before),
    }
}

/// One member of a class body.
fn one_member<'a>(
    bodies: &TypedClass,
    member: MemberNumber,
    before: Constructing<'a>,
) -> Result<Constructing<'a>, Pos>
    ensures { let b = class_bodies bodies.now in let xs = statements_of (map statement_form before.entry.rest.now) in
        (s : State) → before.entry.so_far ≡ kept s →
        MatchResult result (λ r. (z : State) × (r.so_far ≡ kept z) × ((ms : List MemberNumber) →
        walk before.entry.count (members_behind b.functions b.constructor s xs (member ∷ ms))
        ≡ walk r.count (members_behind b.functions b.constructor z (statements_of (map statement_form r.rest.now)) ms)))
        (λ p. (ms : List MemberNumber) →
        walk before.entry.count (members_behind b.functions b.constructor s xs (member ∷ ms)) ≡ Err p) }
{
    match member {
        MemberNumber::Function(number) => {
            match method_statements(bodies.functions.as_slice(), number, before.count) {
                Ok(count) => Ok(Constructing {
                    so_far: before.so_far,
                    rest: before.rest,
                    count,
                }),
                Err(place) => Err(place),
            }
        }
        MemberNumber::Property(_) => next_statement(&bodies.constructor, before),
    }
}

/// The members of a class body.
fn member_statements(
    members: &[MemberNumber],
    bodies: &TypedClass,
    start: Constructing,
) -> Result<u64, Pos>
    ensures { let b = class_bodies bodies.now in (s : State) → start.entry.so_far ≡ kept s →
        result ≡ walk start.entry.count (members_behind b.functions b.constructor s
        (statements_of (map statement_form start.entry.rest.now)) members.now) }
{
    let mut so_far = start.so_far;
    let mut rest = start.rest;
    let mut count = start.count;
    for member in members {
        let before = Constructing {
            so_far,
            rest,
            count,
        };
        match one_member(bodies, *member, before) {
            Ok(next) => {
                so_far = next.so_far;
                rest = next.rest;
                count = next.count;
            }
            Err(place) => return Err(place),
        }
    }
    Ok(count)
}

/// The arguments of a superclass, where a class has one whose constructor is called.
fn superclass_statement<'a>(
    superclass: &Option<u32>,
    constructor: &Option<TypedFun>,
    before: Constructing<'a>,
) -> Result<Constructing<'a>, Pos>
    ensures { let f = maybe_fun constructor.now in let xs = statements_of (map statement_form before.entry.rest.now) in
        (s : State) (fs : List (Option FunForm)) (ms : List MemberNumber) → before.entry.so_far ≡ kept s →
        MatchResult result (λ r. (z : State) × (r.so_far ≡ kept z) ×
        (walk before.entry.count (constructed fs f s xs ms superclass.now)
        ≡ walk r.count (members_behind fs f z (statements_of (map statement_form r.rest.now)) ms)))
        (λ p. walk before.entry.count (constructed fs f s xs ms superclass.now) ≡ Err p) }
{
    match superclass {
        Some(_) => next_statement(constructor, before),
        None => Ok(before),
    }
}

/// The direct statements of a class.
fn whole_class(class: &DeclaredClass, bodies: &TypedClass, count: u64) -> Result<u64, Pos>
    ensures { result ≡ walk count (class_parts (Some (class_form class.now)) (Some (class_bodies bodies.now))) }
{
    let start = Constructing {
        so_far: constructor_beginning(&bodies.constructor),
        rest: constructor_statements(&bodies.constructor),
        count,
    };
    match superclass_statement(&class.superclass, &bodies.constructor, start) {
        Ok(begun) => member_statements(class.members.as_slice(), bodies, begun),
        Err(place) => Err(place),
    }
}

/// The direct statements of the class in a row of the hierarchy.
fn class_statements(unit: &TypedUnit, row: u32, count: u64) -> Result<u64, Pos>
    ensures { let u = unit_form unit.now in
        result ≡ walk count (class_parts (slice_get u.headers.classes row) (slice_get u.classes row)) }
{
    match at(unit.headers.classes.as_slice(), row as usize) {
        Some(class) => match at(unit.classes.as_slice(), row as usize) {
            Some(bodies) => whole_class(class, bodies, count),
            None => Ok(count),
        },
        None => Ok(count),
    }
}

/// The direct statements of a function at top level.
fn function_statements(functions: &[TypedFun], number: u32, count: u64) -> Result<u64, Pos>
    ensures { result ≡ walk count (maybe_parts (slice_get (map fun_form functions.now) number)) }
{
    match at(functions, number as usize) {
        Some(body) => body_statements(body, count),
        None => Ok(count),
    }
}

/// The direct statements of a declaration, with the nodes of the file so far.
fn declaration_statements(
    unit: &TypedUnit,
    declaration: DeclarationNumber,
    count: u64,
) -> Result<u64, Pos>
    ensures { result ≡ stated (unit_form unit.now) count declaration }
{
    match declaration {
        DeclarationNumber::Function(number) => {
            function_statements(unit.functions.as_slice(), number, count)
        }
        DeclarationNumber::Class(row) => {
            let nodes = class_headers(&unit.headers, row)?;
            class_statements(unit, row, nodes)?;
            Ok(count)
        }
        DeclarationNumber::Constant(_) => Ok(count),
    }
}

/// The direct statements of all declarations, each within limits.
pub fn all_statements(unit: &TypedUnit, start: u64) -> Result<u64, Pos>
    ensures { let u = unit_form unit.now in result ≡ walk_statements u start u.headers.order }
{
    let mut count = start;
    for declaration in unit.headers.order.as_slice() {
        count = declaration_statements(unit, *declaration, count)?;
    }
    Ok(count)
}
