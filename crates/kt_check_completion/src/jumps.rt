//! Jumps: whether a `break` or a `continue` of the loop round it stands in a typed tree (Kotlin specification, "Jump
//! expressions"). What a loop holds in its condition or its bounds isn't in that loop.

ghost use Rattle.kt_check_rules.specs.Completion as spec;
ghost use Rattle.kt_typed.specs.Bodies.{block_form, call_form, callee_form, catch_form, catches_of, condition_form, conditions_of, entries_of, entry_form, expression_form, expressions_of, maybe_block, maybe_expression, part_form, parts_of, receiver_form, statement_form, statements_of, target_form};
ghost use Rattle.std.specs.Prelude.{◌≡◌, map, option_map};

use kt_typed::{
    Callee, Receiver, Target, TypedBlock, TypedCall, TypedCatch, TypedCondition, TypedEntry,
    TypedExpression, TypedKind, TypedPart, TypedStatement, TypedStatementKind,
};
use sqlite_items::Boxed;

/// Whether a `break`, where the first is true, or else a `continue` of the loop round it stands in an expression.
#[cycle(jumps)]
pub fn jumps(breaks: bool, e: &TypedExpression) -> bool
    ensures { result ≡ spec.jumps breaks (expression_form e.now) }
{
    match &e.kind {
        TypedKind::Literal(_)
        | TypedKind::Local(_)
        | TypedKind::Captured(_)
        | TypedKind::This
        | TypedKind::Constant(_)
        | TypedKind::EnumEntry(_, _)
        | TypedKind::Lambda(_, _) => false,
        TypedKind::Template(parts) => jumps_in_parts(breaks, parts.as_slice()),
        TypedKind::Property(receiver, _) => jumps_in_receiver(breaks, receiver),
        TypedKind::Prefix(_, inner)
        | TypedKind::TypeTest(inner, _, _)
        | TypedKind::Cast(inner, _, _)
        | TypedKind::NotNull(inner)
        | TypedKind::Throw(inner) => jumps(breaks, inner.get()),
        TypedKind::Binary(_, left, right) => {
            jumps(breaks, left.get()) || jumps(breaks, right.get())
        }
        TypedKind::Index(array, index) => jumps(breaks, array.get()) || jumps(breaks, index.get()),
        TypedKind::Call(call) => jumps_in_call(breaks, call),
        TypedKind::If(condition, then, otherwise) => {
            jumps(breaks, condition.get())
                || (jumps_in_block(breaks, then) || jumps_in_maybe_block(breaks, otherwise))
        }
        TypedKind::When(subject, entries) => {
            jumps_in_maybe(breaks, subject) || jumps_in_entries(breaks, entries.as_slice())
        }
        TypedKind::Try(block, catches, last) => {
            jumps_in_block(breaks, block)
                || (jumps_in_catches(breaks, catches.as_slice())
                    || jumps_in_maybe_block(breaks, last))
        }
        TypedKind::Return(value) => jumps_in_maybe(breaks, value),
        TypedKind::Break => breaks,
        TypedKind::Continue => !breaks,
    }
}

#[cycle(jumps)]
fn jumps_in_all(breaks: bool, arguments: &[TypedExpression]) -> bool
    ensures { result ≡ spec.jumps_in_all breaks (expressions_of (map expression_form arguments.now)) }
{
    for each in arguments {
        if jumps(breaks, each) {
            return true;
        }
    }
    false
}

#[cycle(jumps)]
fn jumps_in_maybe(breaks: bool, e: &Option<Boxed<TypedExpression>>) -> bool
    ensures { result ≡ spec.jumps_in_maybe breaks (maybe_expression (option_map expression_form e.now)) }
{
    match e {
        Some(there) => jumps(breaks, there.get()),
        None => false,
    }
}

#[cycle(jumps)]
fn jumps_in_parts(breaks: bool, parts: &[TypedPart]) -> bool
    ensures { result ≡ spec.jumps_in_parts breaks (parts_of (map part_form parts.now)) }
{
    for each in parts {
        if jumps_in_part(breaks, each) {
            return true;
        }
    }
    false
}

#[cycle(jumps)]
fn jumps_in_part(breaks: bool, part: &TypedPart) -> bool
    ensures { result ≡ spec.jumps_in_part breaks (part_form part.now) }
{
    match part {
        TypedPart::Text(_) => false,
        TypedPart::Printed(printed) => jumps(breaks, printed.get()),
    }
}

#[cycle(jumps)]
fn jumps_in_receiver(breaks: bool, receiver: &Receiver) -> bool
    ensures { result ≡ spec.jumps_in_receiver breaks (receiver_form receiver.now) }
{
    match receiver {
        Receiver::Implicit => false,
        Receiver::Plain(object) | Receiver::Safe(object) => jumps(breaks, object.get()),
    }
}

#[cycle(jumps)]
fn jumps_in_call(breaks: bool, call: &TypedCall) -> bool
    ensures { result ≡ spec.jumps_in_call breaks (call_form call.now) }
{
    jumps_in_callee(breaks, &call.callee) || jumps_in_all(breaks, call.arguments.as_slice())
}

#[cycle(jumps)]
fn jumps_in_callee(breaks: bool, callee: &Callee) -> bool
    ensures { result ≡ spec.jumps_in_callee breaks (callee_form callee.now) }
{
    match callee {
        Callee::Function(_) | Callee::Constructor(_) | Callee::BuiltIn(_) => false,
        Callee::Method(receiver, _, _) | Callee::BuiltInMethod(receiver, _) => {
            jumps_in_receiver(breaks, receiver)
        }
        Callee::Value(called, _) => jumps(breaks, called.get()),
    }
}

#[cycle(jumps)]
fn jumps_in_entries(breaks: bool, entries: &[TypedEntry]) -> bool
    ensures { result ≡ spec.jumps_in_entries breaks (entries_of (map entry_form entries.now)) }
{
    for each in entries {
        if jumps_in_entry(breaks, each) {
            return true;
        }
    }
    false
}

#[cycle(jumps)]
fn jumps_in_entry(breaks: bool, entry: &TypedEntry) -> bool
    ensures { result ≡ spec.jumps_in_entry breaks (entry_form entry.now) }
{
    jumps_in_conditions(breaks, entry.conditions.as_slice()) || jumps_in_block(breaks, &entry.body)
}

#[cycle(jumps)]
fn jumps_in_conditions(breaks: bool, conditions: &[TypedCondition]) -> bool
    ensures { result ≡ spec.jumps_in_conditions breaks (conditions_of (map condition_form conditions.now)) }
{
    for each in conditions {
        if jumps_in_condition(breaks, each) {
            return true;
        }
    }
    false
}

#[cycle(jumps)]
fn jumps_in_condition(breaks: bool, condition: &TypedCondition) -> bool
    ensures { result ≡ spec.jumps_in_condition breaks (condition_form condition.now) }
{
    match condition {
        TypedCondition::Equals(value) | TypedCondition::Holds(value) => jumps(breaks, value.get()),
        TypedCondition::OfType(_, _) => false,
    }
}

#[cycle(jumps)]
fn jumps_in_catches(breaks: bool, catches: &[TypedCatch]) -> bool
    ensures { result ≡ spec.jumps_in_catches breaks (catches_of (map catch_form catches.now)) }
{
    for each in catches {
        if jumps_in_block(breaks, &each.body) {
            return true;
        }
    }
    false
}

/// The same of a block.
#[cycle(jumps)]
pub fn jumps_in_block(breaks: bool, block: &TypedBlock) -> bool
    ensures { result ≡ spec.jumps_in_block breaks (block_form block.now) }
{
    jumps_in_statements(breaks, block.statements.as_slice()) || jumps_in_maybe(breaks, &block.value)
}

#[cycle(jumps)]
fn jumps_in_maybe_block(breaks: bool, block: &Option<TypedBlock>) -> bool
    ensures { result ≡ spec.jumps_in_maybe_block breaks (maybe_block (option_map block_form block.now)) }
{
    match block {
        Some(there) => jumps_in_block(breaks, there),
        None => false,
    }
}

#[cycle(jumps)]
fn jumps_in_statements(breaks: bool, statements: &[TypedStatement]) -> bool
    ensures { result ≡ spec.jumps_in_statements breaks (statements_of (map statement_form statements.now)) }
{
    for each in statements {
        if jumps_in_statement(breaks, each) {
            return true;
        }
    }
    false
}

#[cycle(jumps)]
fn jumps_in_statement(breaks: bool, statement: &TypedStatement) -> bool
    ensures { result ≡ spec.jumps_in_statement breaks (statement_form statement.now) }
{
    match &statement.kind {
        TypedStatementKind::Declare(_, value) => jumps_in_maybe(breaks, value),
        TypedStatementKind::Assign(target, _, value) => {
            jumps_in_target(breaks, target) || jumps(breaks, value.get())
        }
        TypedStatementKind::Step(target, _, _) => jumps_in_target(breaks, target),
        TypedStatementKind::While(condition, _) => jumps(breaks, condition.get()),
        TypedStatementKind::DoWhile(_, condition) => jumps(breaks, condition.get()),
        TypedStatementKind::For(_, first, _, bound, _) => {
            jumps(breaks, first.get()) || jumps(breaks, bound.get())
        }
        TypedStatementKind::Evaluate(value)
        | TypedStatementKind::Initialize(_, value)
        | TypedStatementKind::Result(value) => jumps(breaks, value.get()),
        TypedStatementKind::Superclass(arguments) => jumps_in_all(breaks, arguments.as_slice()),
        TypedStatementKind::End => false,
    }
}

#[cycle(jumps)]
fn jumps_in_target(breaks: bool, target: &Target) -> bool
    ensures { result ≡ spec.jumps_in_target breaks (target_form target.now) }
{
    match target {
        Target::ToLocal(_) | Target::ToCaptured(_) => false,
        Target::ToProperty(receiver, _) => jumps_in_receiver(breaks, receiver),
        Target::ToElement(array, index) => jumps(breaks, array.get()) || jumps(breaks, index.get()),
    }
}
