//! What completes: behind which expressions, blocks and statements the text goes on.

ghost use Rattle.kt_check_rules.specs.Completion as spec;
ghost use Rattle.kt_check_rules.specs.Kinds as kinds;
ghost use Rattle.kt_typed.specs.Bodies.{block_form, catch_form, catches_of, entries_of, entry_form, expression_form, maybe_block, maybe_expression, statement_form, statements_of};
ghost use Rattle.kt_typed.specs.Headers.{headers_form};
ghost use Rattle.kt_types_tree.specs.Types.{type_form};
ghost use Rattle.std.specs.Prelude.{◌≡◌, map, not, option_map};

use crate::entries::{is_always, is_exhaustive};
use crate::jumps::jumps_in_block;
use kt_typed::{
    Headers, TypedBlock, TypedCatch, TypedEntry, TypedExpression, TypedKind, TypedStatement,
    TypedStatementKind,
};
use kt_types_tree::{KtType, TypeShape};
use sqlite_items::Boxed;

/// Whether it is `Nothing`.
pub fn is_nothing(t: &KtType) -> bool
    ensures { result ≡ kinds.is_nothing (type_form t.now) }
{
    if t.nullable {
        return false;
    }
    match &t.shape {
        TypeShape::Nothing => true,
        TypeShape::Any => false,
        TypeShape::Parameter(_, _) => false,
        TypeShape::Of(_, _) => false,
    }
}

fn is_something(t: &KtType) -> bool
    ensures { result ≡ not (kinds.is_nothing (type_form t.now)) }
{
    !is_nothing(t)
}

/// Whether an expression completes. An `if` with `else` and a `when` that names every value complete where a branch
/// does; a `try` where `finally` does and its block or a catch. Any other one completes unless it is of type `Nothing`.
#[cycle(completing)]
pub fn completes(h: &Headers, e: &TypedExpression) -> bool
    ensures { result ≡ spec.completes (headers_form h.now) (expression_form e.now) }
{
    match &e.kind {
        TypedKind::If(_, then, otherwise) => {
            block_completes(h, then) || maybe_block_completes(h, otherwise)
        }
        TypedKind::When(subject, entries) => {
            !is_exhaustive(h, subject, entries.as_slice())
                || entries_complete(h, entries.as_slice())
        }
        TypedKind::Try(block, catches, last) => {
            (block_completes(h, block) || catches_complete(h, catches.as_slice()))
                && maybe_block_completes(h, last)
        }
        TypedKind::Literal(_)
        | TypedKind::Template(_)
        | TypedKind::This
        | TypedKind::Constant(_)
        | TypedKind::EnumEntry(_, _)
        | TypedKind::Prefix(_, _)
        | TypedKind::TypeTest(_, _, _)
        | TypedKind::Lambda(_, _) => true,
        TypedKind::Local(_)
        | TypedKind::Captured(_)
        | TypedKind::Property(_, _)
        | TypedKind::Binary(_, _, _)
        | TypedKind::Cast(_, _, _)
        | TypedKind::NotNull(_)
        | TypedKind::Index(_, _)
        | TypedKind::Call(_) => is_something(&e.of_type),
        TypedKind::Throw(_) | TypedKind::Return(_) | TypedKind::Break | TypedKind::Continue => {
            false
        }
    }
}

/// The same of a block.
#[cycle(completing)]
pub fn block_completes(h: &Headers, block: &TypedBlock) -> bool
    ensures { result ≡ spec.block_completes (headers_form h.now) (block_form block.now) }
{
    statements_complete(h, block.statements.as_slice()) && value_completes(h, &block.value)
}

#[cycle(completing)]
fn value_completes(h: &Headers, e: &Option<Boxed<TypedExpression>>) -> bool
    ensures { result ≡ spec.value_completes (headers_form h.now) (maybe_expression (option_map expression_form e.now)) }
{
    match e {
        Some(there) => completes(h, there.get()),
        None => true,
    }
}

/// Of a block that may not be there.
#[cycle(completing)]
fn maybe_block_completes(h: &Headers, block: &Option<TypedBlock>) -> bool
    ensures otherwise { result ≡
        spec.else_completes (headers_form h.now) (maybe_block (option_map block_form block.now)) }
    ensures last { result ≡
        spec.finally_completes (headers_form h.now) (maybe_block (option_map block_form block.now)) }
{
    match block {
        Some(there) => block_completes(h, there),
        None => true,
    }
}

#[cycle(completing)]
fn entries_complete(h: &Headers, entries: &[TypedEntry]) -> bool
    ensures { result ≡ spec.entries_complete (headers_form h.now) (entries_of (map entry_form entries.now)) }
{
    for each in entries {
        if block_completes(h, &each.body) {
            return true;
        }
    }
    false
}

#[cycle(completing)]
fn catches_complete(h: &Headers, catches: &[TypedCatch]) -> bool
    ensures { result ≡ spec.catches_complete (headers_form h.now) (catches_of (map catch_form catches.now)) }
{
    for each in catches {
        if block_completes(h, &each.body) {
            return true;
        }
    }
    false
}

/// Whether statements behind one another complete.
#[cycle(completing)]
pub fn statements_complete(h: &Headers, statements: &[TypedStatement]) -> bool
    ensures { result ≡
        spec.statements_complete (headers_form h.now) (statements_of (map statement_form statements.now)) }
{
    for each in statements {
        if !statement_completes(h, each) {
            return false;
        }
    }
    true
}

/// Whether a statement completes. A loop with the literal `true` completes by a `break` alone; so does a `do` loop
/// whose body neither completes nor continues.
#[cycle(completing)]
pub fn statement_completes(h: &Headers, statement: &TypedStatement) -> bool
    ensures { result ≡ spec.statement_completes (headers_form h.now) (statement_form statement.now) }
{
    match &statement.kind {
        TypedStatementKind::While(condition, body) => {
            !is_always(condition.get()) || jumps_in_block(true, body)
        }
        TypedStatementKind::DoWhile(body, condition) => {
            (!is_always(condition.get())
                && (block_completes(h, body) || jumps_in_block(false, body)))
                || jumps_in_block(true, body)
        }
        TypedStatementKind::Evaluate(value) => completes(h, value.get()),
        TypedStatementKind::Result(_) => false,
        TypedStatementKind::Declare(_, _)
        | TypedStatementKind::Assign(_, _, _)
        | TypedStatementKind::Step(_, _, _)
        | TypedStatementKind::For(_, _, _, _, _)
        | TypedStatementKind::Superclass(_)
        | TypedStatementKind::Initialize(_, _)
        | TypedStatementKind::End => true,
    }
}
