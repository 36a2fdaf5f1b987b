//! What limits speak of in each form: locals, text parts, lambda literals.

ghost use Rattle.kt_limits.specs.Noted as spec;
ghost use Rattle.kt_limits.specs.Noting.{seen};
ghost use Rattle.kt_typed.specs.Bodies.{block_form, call_form, callee_form, catch_form, catches_of, condition_form, conditions_of, entries_of, entry_form, expression_form, expressions_of, fun_form, maybe_block, maybe_expression, part_form, parts_of, receiver_form, statement_form, statements_of, target_form};
ghost use Rattle.std.specs.Prelude.{◌≡◌, map, option_map};

use crate::notes::Notes;
use kt_typed::{
    Callee, Receiver, Target, TypedBlock, TypedCall, TypedCatch, TypedCondition, TypedEntry,
    TypedExpression, TypedFun, TypedKind, TypedPart, TypedStatement, TypedStatementKind,
};
use sqlite_items::Boxed;

/// An expression.
#[cycle(noting)]
fn expression_notes(expression: &TypedExpression) -> Notes
    ensures { result ≡ seen (spec.noted (expression_form expression.now)) }
{
    match &expression.kind {
        TypedKind::Literal(_)
        | TypedKind::Local(_)
        | TypedKind::Captured(_)
        | TypedKind::This
        | TypedKind::Constant(_)
        | TypedKind::EnumEntry(_, _)
        | TypedKind::Break
        | TypedKind::Continue => Notes::nothing(),
        TypedKind::Template(parts) => parts_notes(parts.as_slice()),
        TypedKind::Property(receiver, _) => receiver_notes(receiver),
        TypedKind::Prefix(_, inner)
        | TypedKind::TypeTest(inner, _, _)
        | TypedKind::Cast(inner, _, _)
        | TypedKind::NotNull(inner)
        | TypedKind::Throw(inner) => expression_notes(inner.get()),
        TypedKind::Binary(_, left, right) => {
            expression_notes(left.get()).beside(expression_notes(right.get()))
        }
        TypedKind::Index(array, index) => {
            expression_notes(array.get()).beside(expression_notes(index.get()))
        }
        TypedKind::Call(call) => call_notes(call),
        TypedKind::If(condition, then, otherwise) => {
            expression_notes(condition.get())
                .beside(block_notes(then))
                .beside(maybe_block_notes(otherwise))
        }
        TypedKind::When(subject, entries) => {
            maybe_notes(subject).beside(entries_notes(entries.as_slice()))
        }
        TypedKind::Try(block, catches, last) => {
            block_notes(block)
                .beside(catches_notes(catches.as_slice()))
                .beside(maybe_block_notes(last))
        }
        TypedKind::Return(value) => maybe_notes(value),
        TypedKind::Lambda(_, body) => lambda_notes(body.get()),
    }
}

/// A lambda literal.
#[cycle(noting)]
fn lambda_notes(body: &TypedFun) -> Notes
    ensures { result ≡ seen (spec.noted_in_lambda (fun_form body.now)) }
{
    Notes::lambda(body, statements_notes(body.statements.as_slice()))
}

/// An expression, where there is one.
#[cycle(noting)]
fn maybe_notes(expression: &Option<Boxed<TypedExpression>>) -> Notes
    ensures { result ≡ seen (spec.noted_in_maybe (maybe_expression (option_map expression_form expression.now))) }
{
    match expression {
        Some(there) => expression_notes(there.get()),
        None => Notes::nothing(),
    }
}

/// Arguments.
#[cycle(noting)]
fn all_notes(arguments: &[TypedExpression]) -> Notes
    ensures { result ≡ seen (spec.noted_in_all (expressions_of (map expression_form arguments.now))) }
{
    let mut whole = Notes::nothing();
    for argument in arguments {
        whole = whole.beside(expression_notes(argument));
    }
    whole
}

/// The parts of a string.
#[cycle(noting)]
fn parts_notes(parts: &[TypedPart]) -> Notes
    ensures { result ≡ seen (spec.noted_in_parts (parts_of (map part_form parts.now))) }
{
    let mut whole = Notes::nothing();
    for part in parts {
        whole = whole.beside(part_notes(part));
    }
    whole
}

/// A part of a string.
#[cycle(noting)]
fn part_notes(part: &TypedPart) -> Notes
    ensures { result ≡ seen (spec.noted_in_part (part_form part.now)) }
{
    match part {
        TypedPart::Text(text) => Notes::text(text),
        TypedPart::Printed(printed) => expression_notes(printed.get()),
    }
}

/// A receiver.
#[cycle(noting)]
fn receiver_notes(receiver: &Receiver) -> Notes
    ensures { result ≡ seen (spec.noted_in_receiver (receiver_form receiver.now)) }
{
    match receiver {
        Receiver::Implicit => Notes::nothing(),
        Receiver::Plain(object) | Receiver::Safe(object) => expression_notes(object.get()),
    }
}

/// A call.
#[cycle(noting)]
fn call_notes(call: &TypedCall) -> Notes
    ensures { result ≡ seen (spec.noted_in_call (call_form call.now)) }
{
    callee_notes(&call.callee).beside(all_notes(call.arguments.as_slice()))
}

/// What is called.
#[cycle(noting)]
fn callee_notes(callee: &Callee) -> Notes
    ensures { result ≡ seen (spec.noted_in_callee (callee_form callee.now)) }
{
    match callee {
        Callee::Function(_) | Callee::Constructor(_) | Callee::BuiltIn(_) => Notes::nothing(),
        Callee::Method(receiver, _, _) | Callee::BuiltInMethod(receiver, _) => {
            receiver_notes(receiver)
        }
        Callee::Value(called, _) => expression_notes(called.get()),
    }
}

/// The entries of a `when`.
#[cycle(noting)]
fn entries_notes(entries: &[TypedEntry]) -> Notes
    ensures { result ≡ seen (spec.noted_in_entries (entries_of (map entry_form entries.now))) }
{
    let mut whole = Notes::nothing();
    for entry in entries {
        whole = whole.beside(entry_notes(entry));
    }
    whole
}

/// An entry of a `when`.
#[cycle(noting)]
fn entry_notes(entry: &TypedEntry) -> Notes
    ensures { result ≡ seen (spec.noted_in_entry (entry_form entry.now)) }
{
    conditions_notes(entry.conditions.as_slice()).beside(block_notes(&entry.body))
}

/// The conditions of an entry.
#[cycle(noting)]
fn conditions_notes(conditions: &[TypedCondition]) -> Notes
    ensures { result ≡ seen (spec.noted_in_conditions (conditions_of (map condition_form conditions.now))) }
{
    let mut whole = Notes::nothing();
    for condition in conditions {
        whole = whole.beside(condition_notes(condition));
    }
    whole
}

/// A condition of an entry.
#[cycle(noting)]
fn condition_notes(condition: &TypedCondition) -> Notes
    ensures { result ≡ seen (spec.noted_in_condition (condition_form condition.now)) }
{
    match condition {
        TypedCondition::Equals(value) | TypedCondition::Holds(value) => {
            expression_notes(value.get())
        }
        TypedCondition::OfType(_, _) => Notes::nothing(),
    }
}

/// The catch blocks of a `try`.
#[cycle(noting)]
fn catches_notes(catches: &[TypedCatch]) -> Notes
    ensures { result ≡ seen (spec.noted_in_catches (catches_of (map catch_form catches.now))) }
{
    let mut whole = Notes::nothing();
    for each in catches {
        whole = whole.beside(catch_notes(each));
    }
    whole
}

/// A catch block, whose exception is a local.
#[cycle(noting)]
fn catch_notes(each: &TypedCatch) -> Notes
    ensures { result ≡ seen (spec.noted_in_catch (catch_form each.now)) }
{
    block_notes(&each.body).behind_local()
}

/// A block.
#[cycle(noting)]
fn block_notes(block: &TypedBlock) -> Notes
    ensures { result ≡ seen (spec.noted_in_block (block_form block.now)) }
{
    statements_notes(block.statements.as_slice()).beside(maybe_notes(&block.value))
}

/// A block, where there is one.
#[cycle(noting)]
fn maybe_block_notes(block: &Option<TypedBlock>) -> Notes
    ensures { result ≡ seen (spec.noted_in_maybe_block (maybe_block (option_map block_form block.now))) }
{
    match block {
        Some(there) => block_notes(there),
        None => Notes::nothing(),
    }
}

/// Statements.
#[cycle(noting)]
fn statements_notes(statements: &[TypedStatement]) -> Notes
    ensures { result ≡ seen (spec.noted_in_statements (statements_of (map statement_form statements.now))) }
{
    let mut whole = Notes::nothing();
    for statement in statements {
        whole = whole.beside(statement_notes(statement));
    }
    whole
}

/// A statement.
#[cycle(noting)]
pub fn statement_notes(statement: &TypedStatement) -> Notes
    ensures { result ≡ seen (spec.noted_in_statement (statement_form statement.now)) }
{
    match &statement.kind {
        TypedStatementKind::Declare(_, value) => maybe_notes(value).beside(Notes::local()),
        TypedStatementKind::Assign(target, _, value) => {
            target_notes(target).beside(expression_notes(value.get()))
        }
        TypedStatementKind::Step(target, _, _) => target_notes(target),
        TypedStatementKind::While(condition, body) => {
            expression_notes(condition.get()).beside(block_notes(body))
        }
        TypedStatementKind::DoWhile(body, condition) => {
            block_notes(body).beside(expression_notes(condition.get()))
        }
        TypedStatementKind::For(_, first, _, bound, body) => {
            expression_notes(first.get())
                .beside(expression_notes(bound.get()))
                .beside(Notes::local())
                .beside(block_notes(body))
        }
        TypedStatementKind::Evaluate(value)
        | TypedStatementKind::Initialize(_, value)
        | TypedStatementKind::Result(value) => expression_notes(value.get()),
        TypedStatementKind::Superclass(arguments) => all_notes(arguments.as_slice()),
        TypedStatementKind::End => Notes::nothing(),
    }
}

/// What is assigned to.
#[cycle(noting)]
fn target_notes(target: &Target) -> Notes
    ensures { result ≡ seen (spec.noted_in_target (target_form target.now)) }
{
    match target {
        Target::ToLocal(_) | Target::ToCaptured(_) => Notes::nothing(),
        Target::ToProperty(receiver, _) => receiver_notes(receiver),
        Target::ToElement(array, index) => {
            expression_notes(array.get()).beside(expression_notes(index.get()))
        }
    }
}
