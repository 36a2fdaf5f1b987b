//! What each form counts for.

ghost use Rattle.kt_sizes.specs.Capped.{capped};
ghost use Rattle.kt_sizes.specs.Counting as spec;
ghost use Rattle.kt_typed.specs.Bodies.{block_form, call_form, callee_form, catch_form, catches_of, condition_form, conditions_of, entries_of, entry_form, expression_form, expressions_of, fun_form, maybe_block, maybe_expression, part_form, parts_of, receiver_form, statement_form, statements_of, target_form};
ghost use Rattle.std.specs.Prelude.{◌≡◌, map, option_map};

use crate::sizes::Sizes;
use kt_typed::{
    Callee, Receiver, Target, TypedBlock, TypedCall, TypedCatch, TypedCondition, TypedEntry,
    TypedExpression, TypedFun, TypedKind, TypedOperator, TypedPart, TypedStatement,
    TypedStatementKind,
};
use sqlite_items::Boxed;

/// How many left operands wait while the right one is evaluated.
fn left_waits(operator: TypedOperator) -> u64
    ensures { result ≡ spec.left_waits operator }
{
    match operator {
        TypedOperator::Disjunction | TypedOperator::Conjunction | TypedOperator::Elvis => 0,
        TypedOperator::Equal
        | TypedOperator::NotEqual
        | TypedOperator::Concatenate
        | TypedOperator::Arithmetic(_, _)
        | TypedOperator::Bitwise(_, _)
        | TypedOperator::Shift(_, _)
        | TypedOperator::Compare(_, _) => 1,
    }
}

/// How many old values wait.
fn old_waits(operator: &Option<TypedOperator>) -> u64
    ensures { result ≡ spec.old_waits operator.now }
{
    match operator {
        Some(_) => 1,
        None => 0,
    }
}

/// How many receivers wait.
fn receiver_waits(receiver: &Receiver) -> u64
    ensures { result ≡ spec.receiver_waits (receiver_form receiver.now) }
{
    match receiver {
        Receiver::Implicit => 0,
        Receiver::Plain(_) | Receiver::Safe(_) => 1,
    }
}

/// How many values of what is called wait for the arguments.
fn callee_waits(callee: &Callee) -> u64
    ensures { result ≡ spec.callee_waits (callee_form callee.now) }
{
    match callee {
        Callee::Function(_) | Callee::Constructor(_) | Callee::BuiltIn(_) => 0,
        Callee::Method(receiver, _, _) | Callee::BuiltInMethod(receiver, _) => {
            receiver_waits(receiver)
        }
        Callee::Value(_, _) => 1,
    }
}

/// How many values of what is assigned to wait.
fn target_waits(target: &Target) -> u64
    ensures { result ≡ spec.target_waits (target_form target.now) }
{
    match target {
        Target::ToLocal(_) | Target::ToCaptured(_) => 0,
        Target::ToProperty(receiver, _) => receiver_waits(receiver),
        Target::ToElement(_, _) => 2,
    }
}

/// The node of a call.
fn call_node(callee: &Callee) -> Sizes
    ensures { result ≡ capped (spec.call_node (callee_form callee.now)) }
{
    match callee {
        Callee::Value(_, true) => Sizes::nothing(),
        Callee::Value(_, false)
        | Callee::Function(_)
        | Callee::Constructor(_)
        | Callee::Method(_, _, _)
        | Callee::BuiltIn(_)
        | Callee::BuiltInMethod(_, _) => Sizes::node(),
    }
}

/// The node of a part of a string.
fn part_node(several: bool) -> Sizes
    ensures { result ≡ capped (spec.part_node several) }
{
    if several {
        Sizes::node()
    } else {
        Sizes::nothing()
    }
}

/// Whether a string has several parts.
#[tactic(auto, using(crate::proofs::Parts::not_several, crate::proofs::Parts::is_several))]
fn has_several(parts: &[TypedPart]) -> bool
    ensures { result ≡ spec.has_several (parts_of (map part_form parts.now)) }
{
    match parts {
        [_, _, ..] => true,
        _ => false,
    }
}

/// A lambda literal.
fn lambda_sizes(body: &TypedFun) -> Sizes
    ensures { result ≡ capped (spec.sizes_of_lambda (fun_form body.now)) }
{
    Sizes::lambda_node(body.captures.len() as u64)
}

/// An expression.
#[cycle(sizes)]
pub fn expression_sizes(expression: &TypedExpression) -> Sizes
    ensures { result ≡ capped (spec.sizes (expression_form expression.now)) }
{
    match &expression.kind {
        TypedKind::Literal(_)
        | TypedKind::Local(_)
        | TypedKind::Captured(_)
        | TypedKind::This
        | TypedKind::Constant(_)
        | TypedKind::Break
        | TypedKind::Continue => Sizes::node(),
        TypedKind::EnumEntry(_, _) => Sizes::node().beside(Sizes::node()),
        TypedKind::Template(parts) => Sizes::node().beside(parts_sizes(parts.as_slice())),
        TypedKind::Property(receiver, _) => Sizes::node().beside(receiver_sizes(receiver)),
        TypedKind::Prefix(_, inner)
        | TypedKind::TypeTest(inner, _, _)
        | TypedKind::Cast(inner, _, _)
        | TypedKind::NotNull(inner)
        | TypedKind::Throw(inner) => Sizes::node().beside(expression_sizes(inner.get())),
        TypedKind::Binary(operator, left, right) => {
            let right = expression_sizes(right.get()).behind(left_waits(*operator));
            Sizes::node()
                .beside(expression_sizes(left.get()))
                .beside(right)
        }
        TypedKind::Index(array, index) => {
            let index = expression_sizes(index.get()).behind(1);
            Sizes::node()
                .beside(expression_sizes(array.get()))
                .beside(index)
        }
        TypedKind::Call(call) => call_sizes(call),
        TypedKind::If(condition, then, otherwise) => {
            Sizes::node()
                .beside(expression_sizes(condition.get()))
                .beside(block_sizes(then))
                .beside(maybe_block_sizes(otherwise))
        }
        TypedKind::When(subject, entries) => {
            Sizes::when_node()
                .beside(maybe_sizes(subject))
                .beside(entries_sizes(entries.as_slice()))
        }
        TypedKind::Try(block, catches, last) => {
            Sizes::try_node()
                .beside(block_sizes(block))
                .beside(catches_sizes(catches.as_slice()))
                .beside(maybe_block_sizes(last))
        }
        TypedKind::Return(value) => Sizes::node().beside(maybe_sizes(value)),
        TypedKind::Lambda(_, body) => lambda_sizes(body.get()),
    }
}

/// An expression, where there is one.
#[cycle(sizes)]
fn maybe_sizes(expression: &Option<Boxed<TypedExpression>>) -> Sizes
    ensures { result ≡ capped (spec.sizes_of_maybe (maybe_expression (option_map expression_form expression.now))) }
{
    match expression {
        Some(there) => expression_sizes(there.get()),
        None => Sizes::nothing(),
    }
}

/// Arguments, the first of which is evaluated while so many operands wait.
#[cycle(sizes)]
fn all_sizes(arguments: &[TypedExpression], waiting: u64) -> Sizes
    ensures { result ≡ capped (spec.sizes_of_all waiting (expressions_of (map expression_form arguments.now))) }
{
    let mut whole = Sizes::nothing();
    let mut waits = waiting;
    for argument in arguments {
        whole = whole.beside(expression_sizes(argument).behind(waits));
        waits = waits.saturating_add(1);
    }
    whole
}

/// The parts of a string.
#[cycle(sizes)]
fn parts_sizes(parts: &[TypedPart]) -> Sizes
    ensures { let ps = parts_of (map part_form parts.now) in
        result ≡ capped (spec.sizes_of_parts (spec.has_several ps) 0 ps) }
{
    let several = has_several(parts);
    let mut whole = Sizes::nothing();
    let mut waits = 0;
    for part in parts {
        whole = whole.beside(part_node(several).beside(part_sizes(part).behind(waits)));
        waits = 1;
    }
    whole
}

/// What a part of a string prints.
#[cycle(sizes)]
fn part_sizes(part: &TypedPart) -> Sizes
    ensures { result ≡ capped (spec.sizes_of_part (part_form part.now)) }
{
    match part {
        TypedPart::Text(_) => Sizes::nothing(),
        TypedPart::Printed(printed) => expression_sizes(printed.get()),
    }
}

/// A receiver.
#[cycle(sizes)]
fn receiver_sizes(receiver: &Receiver) -> Sizes
    ensures { result ≡ capped (spec.sizes_of_receiver (receiver_form receiver.now)) }
{
    match receiver {
        Receiver::Implicit => Sizes::nothing(),
        Receiver::Plain(object) | Receiver::Safe(object) => expression_sizes(object.get()),
    }
}

/// A call.
#[cycle(sizes)]
fn call_sizes(call: &TypedCall) -> Sizes
    ensures { result ≡ capped (spec.sizes_of_call (call_form call.now)) }
{
    let arguments = all_sizes(call.arguments.as_slice(), callee_waits(&call.callee));
    call_node(&call.callee)
        .beside(callee_sizes(&call.callee))
        .beside(arguments)
        .beside(Sizes::point_if(call.suspends))
}

/// What is called.
#[cycle(sizes)]
fn callee_sizes(callee: &Callee) -> Sizes
    ensures { result ≡ capped (spec.sizes_of_callee (callee_form callee.now)) }
{
    match callee {
        Callee::Function(_) | Callee::Constructor(_) | Callee::BuiltIn(_) => Sizes::nothing(),
        Callee::Method(receiver, _, _) | Callee::BuiltInMethod(receiver, _) => {
            receiver_sizes(receiver)
        }
        Callee::Value(called, _) => expression_sizes(called.get()),
    }
}

/// The entries of a `when`.
#[cycle(sizes)]
fn entries_sizes(entries: &[TypedEntry]) -> Sizes
    ensures { result ≡ capped (spec.sizes_of_entries (entries_of (map entry_form entries.now))) }
{
    let mut whole = Sizes::nothing();
    for entry in entries {
        whole = whole.beside(entry_sizes(entry));
    }
    whole
}

/// An entry of a `when`.
#[cycle(sizes)]
fn entry_sizes(entry: &TypedEntry) -> Sizes
    ensures { result ≡ capped (spec.sizes_of_entry (entry_form entry.now)) }
{
    Sizes::node()
        .beside(conditions_sizes(entry.conditions.as_slice()))
        .beside(block_sizes(&entry.body))
}

/// The conditions of an entry.
#[cycle(sizes)]
fn conditions_sizes(conditions: &[TypedCondition]) -> Sizes
    ensures { result ≡ capped (spec.sizes_of_conditions (conditions_of (map condition_form conditions.now))) }
{
    let mut whole = Sizes::nothing();
    for condition in conditions {
        whole = whole.beside(condition_sizes(condition));
    }
    whole
}

/// A condition of an entry.
#[cycle(sizes)]
fn condition_sizes(condition: &TypedCondition) -> Sizes
    ensures { result ≡ capped (spec.sizes_of_condition (condition_form condition.now)) }
{
    match condition {
        TypedCondition::Equals(value) | TypedCondition::Holds(value) => {
            Sizes::node().beside(expression_sizes(value.get()))
        }
        TypedCondition::OfType(_, _) => Sizes::node(),
    }
}

/// The catch blocks of a `try`.
#[cycle(sizes)]
fn catches_sizes(catches: &[TypedCatch]) -> Sizes
    ensures { result ≡ capped (spec.sizes_of_catches (catches_of (map catch_form catches.now))) }
{
    let mut whole = Sizes::nothing();
    for each in catches {
        whole = whole.beside(catch_sizes(each));
    }
    whole
}

/// A catch block.
#[cycle(sizes)]
fn catch_sizes(each: &TypedCatch) -> Sizes
    ensures { result ≡ capped (spec.sizes_of_catch (catch_form each.now)) }
{
    Sizes::heavy_node().beside(block_sizes(&each.body))
}

/// A block.
#[cycle(sizes)]
fn block_sizes(block: &TypedBlock) -> Sizes
    ensures { result ≡ capped (spec.sizes_of_block (block_form block.now)) }
{
    statements_sizes(block.statements.as_slice()).beside(maybe_sizes(&block.value))
}

/// A block, where there is one.
#[cycle(sizes)]
fn maybe_block_sizes(block: &Option<TypedBlock>) -> Sizes
    ensures { result ≡ capped (spec.sizes_of_maybe_block (maybe_block (option_map block_form block.now))) }
{
    match block {
        Some(there) => block_sizes(there),
        None => Sizes::nothing(),
    }
}

/// Statements.
#[cycle(sizes)]
pub fn statements_sizes(statements: &[TypedStatement]) -> Sizes
    ensures { result ≡ capped (spec.sizes_of_statements (statements_of (map statement_form statements.now))) }
{
    let mut whole = Sizes::nothing();
    for statement in statements {
        whole = whole.beside(statement_sizes(statement));
    }
    whole
}

/// A statement.
#[cycle(sizes)]
pub fn statement_sizes(statement: &TypedStatement) -> Sizes
    ensures { result ≡ capped (spec.sizes_of_statement (statement_form statement.now)) }
{
    match &statement.kind {
        TypedStatementKind::Declare(_, value) => Sizes::node().beside(maybe_sizes(value)),
        TypedStatementKind::Assign(target, operator, value) => {
            let waits = target_waits(target) + old_waits(operator);
            Sizes::node()
                .beside(target_sizes(target))
                .beside(expression_sizes(value.get()).behind(waits))
        }
        TypedStatementKind::Step(target, _, _) => Sizes::node().beside(target_sizes(target)),
        TypedStatementKind::While(condition, body) => {
            Sizes::heavy_node()
                .beside(expression_sizes(condition.get()))
                .beside(block_sizes(body))
        }
        TypedStatementKind::DoWhile(body, condition) => {
            Sizes::heavy_node()
                .beside(block_sizes(body))
                .beside(expression_sizes(condition.get()))
        }
        TypedStatementKind::For(_, first, _, bound, body) => {
            Sizes::for_node()
                .beside(expression_sizes(first.get()))
                .beside(expression_sizes(bound.get()).behind(1))
                .beside(block_sizes(body))
        }
        TypedStatementKind::Evaluate(value)
        | TypedStatementKind::Initialize(_, value)
        | TypedStatementKind::Result(value) => expression_sizes(value.get()),
        TypedStatementKind::Superclass(arguments) => all_sizes(arguments.as_slice(), 0),
        TypedStatementKind::End => Sizes::nothing(),
    }
}

/// What is assigned to.
#[cycle(sizes)]
fn target_sizes(target: &Target) -> Sizes
    ensures { result ≡ capped (spec.sizes_of_target (target_form target.now)) }
{
    match target {
        Target::ToLocal(_) | Target::ToCaptured(_) => Sizes::node(),
        Target::ToProperty(receiver, _) => Sizes::node().beside(receiver_sizes(receiver)),
        Target::ToElement(array, index) => {
            Sizes::node()
                .beside(expression_sizes(array.get()))
                .beside(expression_sizes(index.get()).behind(1))
        }
    }
}
