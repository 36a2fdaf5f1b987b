//! Whether a local is captured as a `var` by a lambda in a part of a body.

ghost use Rattle.kt_direct_lambdas.specs.Taking.{is_taken_in};
ghost use Rattle.kt_meaning.specs.Variables as variables;
ghost use Rattle.kt_typed.specs.Bodies.{block_form, call_form, callee_form, catch_form, catches_of, condition_form};
ghost use Rattle.kt_typed.specs.Bodies.{conditions_of, entries_of, entry_form, expression_form, expressions_of};
ghost use Rattle.kt_typed.specs.Bodies.{fun_form, maybe_block, maybe_expression, part_form, parts_of, receiver_form};
ghost use Rattle.kt_typed.specs.Bodies.{statement_form, statements_of, target_form};
ghost use Rattle.kt_typed.specs.Operators.{capture_form};
ghost use Rattle.kt_typed.specs.Order as order;
ghost use Rattle.kt_typed.specs.Order.{Found};
ghost use Rattle.kt_base.specs.declared.refusals.Pos.{Pos};
ghost use Rattle.std.specs.List.{list_any};
ghost use Rattle.std.specs.Prelude.{◌≡◌, [], ◌∷◌, ◌++◌, ◌&&◌, ◌||◌, Bool, List, false, map, option_map, ℕ};

use kt_typed::{
    Callee, Capture, CaptureSource, Receiver, Target, TypedBlock, TypedCall, TypedCatch,
    TypedCondition, TypedEntry, TypedExpression, TypedFun, TypedKind, TypedPart, TypedStatement,
    TypedStatementKind,
};
use sqlite_items::Boxed;

/// One or the other.
fn one_of(a: bool, b: bool) -> bool
    ensures { result ≡ a || b }
{
    a || b
}

/// One part, or the other behind it.
fn either(n: u32, a: bool, b: bool) -> bool
    ensures { (xs ys : List Found) → a ≡ is_taken_in n xs → b ≡ is_taken_in n ys → result ≡ is_taken_in n (xs ++ ys) }
{
    one_of(a, b)
}

/// A part without a lambda.
fn nowhere(n: u32) -> bool
    ensures { result ≡ is_taken_in n [] }
{
    false
}

/// The call itself, which is no lambda.
fn at_point(n: u32) -> bool
    ensures { (suspends : Bool) (at : Pos) → result ≡ is_taken_in n (order.point_if suspends at) }
{
    false
}

/// Whether the local is what is captured.
fn is_source(n: u32, source: CaptureSource) -> bool
    ensures { result ≡ variables.is_taken n source }
{
    match source {
        CaptureSource::Local(m) => n == m,
        CaptureSource::This | CaptureSource::Captured(_) => false,
    }
}

/// Whether the local is captured so, as a `var`.
fn is_captured(n: u32, capture: &Capture) -> bool
    ensures { let c = capture_form capture.now in result ≡ c.is_variable && variables.is_taken n c.source }
{
    if capture.is_variable {
        is_source(n, capture.source)
    } else {
        false
    }
}

/// Whether one of these is the local, as a `var`.
fn is_any_captured(n: u32, captures: &[Capture]) -> bool
    ensures { result ≡ list_any (λ c. c.is_variable && variables.is_taken n c.source) (map capture_form captures.now) }
{
    match captures {
        [] => false,
        [first, rest @ ..] => one_of(is_captured(n, first), is_any_captured(n, rest)),
    }
}

/// Whether a lambda captures the local as a `var`.
fn takes(n: u32, body: &TypedFun) -> bool
    ensures { result ≡ variables.takes n (fun_form body.now) }
{
    is_any_captured(n, body.captures.as_slice())
}

/// A lambda literal.
fn in_lambda(n: u32, body: &TypedFun) -> bool
    ensures { (k : ℕ) → result ≡ is_taken_in n (order.a_lambda k (fun_form body.now) ∷ []) }
{
    takes(n, body)
}

/// In a body.
fn in_body(n: u32, body: &TypedFun) -> bool
    ensures { result ≡ is_taken_in n (order.found_in_body (fun_form body.now)) }
{
    in_statements(n, body.statements.as_slice())
}

/// Whether a local of a body is captured as a `var` by one of its lambdas.
pub fn is_shared(body: &TypedFun, n: u32) -> bool
    ensures { result ≡ variables.is_shared_in (fun_form body.now) n }
{
    in_body(n, body)
}

/// In an expression.
#[cycle(taking)]
fn in_expression(n: u32, e: &TypedExpression) -> bool
    ensures { result ≡ is_taken_in n (order.found false (expression_form e.now)) }
{
    match &e.kind {
        TypedKind::Literal(_)
        | TypedKind::Local(_)
        | TypedKind::Captured(_)
        | TypedKind::This
        | TypedKind::Constant(_)
        | TypedKind::EnumEntry(_, _)
        | TypedKind::Break
        | TypedKind::Continue => nowhere(n),
        TypedKind::Template(parts) => in_parts(n, parts.as_slice()),
        TypedKind::Property(receiver, _) => in_receiver(n, receiver),
        TypedKind::Prefix(_, inner)
        | TypedKind::TypeTest(inner, _, _)
        | TypedKind::Cast(inner, _, _)
        | TypedKind::NotNull(inner)
        | TypedKind::Throw(inner) => in_expression(n, inner.get()),
        TypedKind::Binary(_, left, right) => {
            either(
                n,
                in_expression(n, left.get()),
                in_expression(n, right.get()),
            )
        }
        TypedKind::Index(array, index) => {
            either(
                n,
                in_expression(n, array.get()),
                in_expression(n, index.get()),
            )
        }
        TypedKind::Call(call) => in_call(n, call),
        TypedKind::If(condition, then, otherwise) => {
            let branches = either(n, in_block(n, then), in_maybe_block(n, otherwise));
            either(n, in_expression(n, condition.get()), branches)
        }
        TypedKind::When(subject, entries) => {
            either(n, in_maybe(n, subject), in_entries(n, entries.as_slice()))
        }
        TypedKind::Try(block, catches, last) => {
            let behind = either(
                n,
                in_catches(n, catches.as_slice()),
                in_maybe_block(n, last),
            );
            either(n, in_block(n, block), behind)
        }
        TypedKind::Return(value) => in_maybe(n, value),
        TypedKind::Lambda(_, body) => in_lambda(n, body.get()),
    }
}

/// In an expression, where there is one.
#[cycle(taking)]
fn in_maybe(n: u32, e: &Option<Boxed<TypedExpression>>) -> bool
    ensures { result ≡ is_taken_in n
        (order.found_in_maybe false (maybe_expression (option_map expression_form e.now))) }
{
    match e {
        Some(there) => in_expression(n, there.get()),
        None => nowhere(n),
    }
}

/// In several expressions.
#[cycle(taking)]
fn in_all(n: u32, all: &[TypedExpression]) -> bool
    ensures { result ≡ is_taken_in n (order.found_in_all false (expressions_of (map expression_form all.now))) }
{
    let mut any = nowhere(n);
    for e in all {
        any = either(n, any, in_expression(n, e));
    }
    any
}

/// In the parts of a string.
#[cycle(taking)]
fn in_parts(n: u32, parts: &[TypedPart]) -> bool
    ensures { result ≡ is_taken_in n (order.found_in_parts false (parts_of (map part_form parts.now))) }
{
    let mut any = nowhere(n);
    for part in parts {
        any = either(n, any, in_part(n, part));
    }
    any
}

/// In a part of a string.
#[cycle(taking)]
fn in_part(n: u32, part: &TypedPart) -> bool
    ensures { result ≡ is_taken_in n (order.found_in_part false (part_form part.now)) }
{
    match part {
        TypedPart::Text(_) => nowhere(n),
        TypedPart::Printed(printed) => in_expression(n, printed.get()),
    }
}

/// In a receiver.
#[cycle(taking)]
fn in_receiver(n: u32, receiver: &Receiver) -> bool
    ensures { result ≡ is_taken_in n (order.found_in_receiver false (receiver_form receiver.now)) }
{
    match receiver {
        Receiver::Implicit => nowhere(n),
        Receiver::Plain(object) | Receiver::Safe(object) => in_expression(n, object.get()),
    }
}

/// In a call.
#[cycle(taking)]
fn in_call(n: u32, call: &TypedCall) -> bool
    ensures { result ≡ is_taken_in n (order.found_in_call false (call_form call.now)) }
{
    let behind = either(n, at_point(n), in_all(n, call.arguments.as_slice()));
    either(n, in_callee(n, &call.callee), behind)
}

/// In what is called.
#[cycle(taking)]
fn in_callee(n: u32, callee: &Callee) -> bool
    ensures { result ≡ is_taken_in n (order.found_in_callee false (callee_form callee.now)) }
{
    match callee {
        Callee::Function(_) | Callee::Constructor(_) | Callee::BuiltIn(_) => nowhere(n),
        Callee::Method(receiver, _, _) | Callee::BuiltInMethod(receiver, _) => in_receiver(
            n, receiver,
        ),
        Callee::Value(called, _) => in_expression(n, called.get()),
    }
}

/// In the entries of a `when`.
#[cycle(taking)]
fn in_entries(n: u32, entries: &[TypedEntry]) -> bool
    ensures { result ≡ is_taken_in n (order.found_in_entries false (entries_of (map entry_form entries.now))) }
{
    let mut any = nowhere(n);
    for entry in entries {
        any = either(n, any, in_entry(n, entry));
    }
    any
}

/// In an entry of a `when`.
#[cycle(taking)]
fn in_entry(n: u32, entry: &TypedEntry) -> bool
    ensures { result ≡ is_taken_in n (order.found_in_entry false (entry_form entry.now)) }
{
    either(
        n,
        in_conditions(n, entry.conditions.as_slice()),
        in_block(n, &entry.body),
    )
}

/// In the conditions of an entry.
#[cycle(taking)]
fn in_conditions(n: u32, conditions: &[TypedCondition]) -> bool
    ensures { result ≡ is_taken_in n
        (order.found_in_conditions false (conditions_of (map condition_form conditions.now))) }
{
    let mut any = nowhere(n);
    for condition in conditions {
        any = either(n, any, in_condition(n, condition));
    }
    any
}

/// In a condition of an entry.
#[cycle(taking)]
fn in_condition(n: u32, condition: &TypedCondition) -> bool
    ensures { result ≡ is_taken_in n (order.found_in_condition false (condition_form condition.now)) }
{
    match condition {
        TypedCondition::Equals(value) | TypedCondition::Holds(value) => in_expression(
            n,
            value.get(),
        ),
        TypedCondition::OfType(_, _) => nowhere(n),
    }
}

/// In the catch blocks of a `try`.
#[cycle(taking)]
fn in_catches(n: u32, catches: &[TypedCatch]) -> bool
    ensures { result ≡ is_taken_in n (order.found_in_catches false (catches_of (map catch_form catches.now))) }
{
    let mut any = nowhere(n);
    for each in catches {
        any = either(n, any, in_catch(n, each));
    }
    any
}

/// In a catch block.
#[cycle(taking)]
fn in_catch(n: u32, each: &TypedCatch) -> bool
    ensures { result ≡ is_taken_in n (order.found_in_catch false (catch_form each.now)) }
{
    in_block(n, &each.body)
}

/// In a block.
#[cycle(taking)]
fn in_block(n: u32, block: &TypedBlock) -> bool
    ensures { result ≡ is_taken_in n (order.found_in_block false (block_form block.now)) }
{
    either(
        n,
        in_statements(n, block.statements.as_slice()),
        in_maybe(n, &block.value),
    )
}

/// In a block, where there is one.
#[cycle(taking)]
fn in_maybe_block(n: u32, block: &Option<TypedBlock>) -> bool
    ensures { result ≡ is_taken_in n
        (order.found_in_maybe_block false (maybe_block (option_map block_form block.now))) }
{
    match block {
        Some(there) => in_block(n, there),
        None => nowhere(n),
    }
}

/// In statements.
#[cycle(taking)]
fn in_statements(n: u32, statements: &[TypedStatement]) -> bool
    ensures { result ≡ is_taken_in n
        (order.found_in_statements false (statements_of (map statement_form statements.now))) }
{
    let mut any = nowhere(n);
    for statement in statements {
        any = either(n, any, in_statement(n, statement));
    }
    any
}

/// In a statement.
#[cycle(taking)]
fn in_statement(n: u32, statement: &TypedStatement) -> bool
    ensures { result ≡ is_taken_in n (order.found_in_statement false (statement_form statement.now)) }
{
    match &statement.kind {
        TypedStatementKind::Declare(_, value) => in_maybe(n, value),
        TypedStatementKind::Assign(target, _, value) => {
            either(n, in_target(n, target), in_expression(n, value.get()))
        }
        TypedStatementKind::Step(target, _, _) => in_target(n, target),
        TypedStatementKind::While(condition, body) => {
            either(n, in_expression(n, condition.get()), in_block(n, body))
        }
        TypedStatementKind::DoWhile(body, condition) => {
            either(n, in_block(n, body), in_expression(n, condition.get()))
        }
        TypedStatementKind::For(_, first, _, bound, body) => {
            let behind = either(n, in_expression(n, bound.get()), in_block(n, body));
            either(n, in_expression(n, first.get()), behind)
        }
        TypedStatementKind::Evaluate(value)
        | TypedStatementKind::Initialize(_, value)
        | TypedStatementKind::Result(value) => in_expression(n, value.get()),
        TypedStatementKind::Superclass(arguments) => in_all(n, arguments.as_slice()),
        TypedStatementKind::End => nowhere(n),
    }
}

/// In what is assigned to.
#[cycle(taking)]
fn in_target(n: u32, target: &Target) -> bool
    ensures { result ≡ is_taken_in n (order.found_in_target false (target_form target.now)) }
{
    match target {
        Target::ToLocal(_) | Target::ToCaptured(_) => nowhere(n),
        Target::ToProperty(receiver, _) => in_receiver(n, receiver),
        Target::ToElement(array, index) => {
            either(
                n,
                in_expression(n, array.get()),
                in_expression(n, index.get()),
            )
        }
    }
}
