//! How many levels a tree has.
//!
//! A node that no other node holds is at level 1, and each other one is one below the node that holds it. Declarations,
//! blocks and lists of statements are no level of their own, and parentheses are one. A type is at the level of what it
//! belongs to, and each type in it is one below. A tree of more levels than a `u32` counts is said to have `u32::MAX`.

ghost use Rattle.kt_tree.specs.Bodies.{
  expression_tree,
  statement_tree,
  block_tree,
  body_tree,
  part_tree,
  condition_tree,
  entry_tree,
  catch_tree,
  expressions_of,
  parts_of,
  conditions_of,
  entries_of,
  catches_of,
};
ghost use Rattle.kt_tree.specs.Bodies.{parameter_tree, lambda_tree};
ghost use Rattle.kt_tree.specs.Levels as spec;
ghost use Rattle.kt_tree.specs.Levels.{counted, most};
ghost use Rattle.kt_tree.specs.Types.{type_tree, types_of, maybe_type};
ghost use Rattle.std.specs.Prelude.{◌≡◌, map};

use crate::bodies::{
    Block, CatchBlock, ControlStructureBody, Expression, ExpressionKind, LambdaLiteral,
    LambdaParameter, Statement, StatementKind, StringPart, WhenCondition, WhenEntry,
};
use crate::types::TypeReference;

impl TypeReference {
    /// How many levels the type has.
    #[cycle(type_levels)]
    pub fn levels(&self) -> u32
        ensures { result ≡ counted (spec.type_levels (type_tree self.now)) }
    {
        match self {
            TypeReference::Named(_, arguments) => types_levels(arguments.as_slice()).saturating_add(
                1,
            ),
            TypeReference::Function(_, parameters, outcome) => {
                types_levels(parameters.as_slice())
                    .max(outcome.get().levels())
                    .saturating_add(1)
            }
            TypeReference::Nullable(inner) => inner.get().levels(),
            TypeReference::Parenthesized(inner) => inner.get().levels().saturating_add(1),
        }
    }
}

#[cycle(type_levels)]
fn types_levels(types: &[TypeReference]) -> u32
    ensures { result ≡ counted (spec.types_levels (types_of (map type_tree types.now))) }
{
    let mut most = 0;
    for each in types {
        most = each.levels().max(most);
    }
    most
}

/// The levels of a type, where one is written.
pub(crate) fn annotation_levels(annotation: &Option<TypeReference>) -> u32
    ensures { result ≡ counted (spec.maybe_type_levels (maybe_type annotation.now)) }
{
    match annotation {
        Some(written) => written.levels(),
        None => 0,
    }
}

pub(crate) fn arguments_levels(arguments: &[TypeReference]) -> u32
    ensures { result ≡ counted (most (map spec.type_levels (map type_tree arguments.now))) }
{
    let mut most = 0;
    for argument in arguments {
        most = argument.levels().max(most);
    }
    most
}

fn parameters_levels(parameters: &[LambdaParameter]) -> u32
    ensures { result ≡ counted (most (map spec.parameter_levels (map parameter_tree parameters.now))) }
{
    let mut most = 0;
    for parameter in parameters {
        most = annotation_levels(&parameter.annotation).max(1).max(most);
    }
    most
}

/// The level that the parts of a string make, where it has several.
#[tactic(auto, using(crate::proofs::Parts::no_part_level, crate::proofs::Parts::a_part_level))]
fn part_level(parts: &[StringPart]) -> u32
    ensures { result ≡ spec.part_level (parts_of (map part_tree parts.now)) }
{
    match parts {
        [_, _, ..] => 1,
        _ => 0,
    }
}

/// Of the levels of what is called, those below the call: a call and its name are one node.
fn below_call(called: &Expression, levels: u32) -> u32
    ensures { result ≡ spec.below_call (expression_tree called.now) levels }
{
    match &called.kind {
        ExpressionKind::Name(_) => 0,
        ExpressionKind::Member(_, _, _) => levels.saturating_sub(1),
        _ => levels,
    }
}

impl Expression {
    /// How many levels the expression has.
    #[cycle(levels)]
    pub fn levels(&self) -> u32
        ensures { result ≡ counted (spec.levels (expression_tree self.now)) }
    {
        match &self.kind {
            ExpressionKind::Literal(_)
            | ExpressionKind::Name(_)
            | ExpressionKind::This
            | ExpressionKind::Break
            | ExpressionKind::Continue
            | ExpressionKind::Return(None) => 1,
            ExpressionKind::Template(parts) => {
                parts_levels(parts.as_slice()).saturating_add(part_level(parts.as_slice()) + 1)
            }
            ExpressionKind::Parenthesized(inner)
            | ExpressionKind::Prefix(_, inner)
            | ExpressionKind::NotNull(inner)
            | ExpressionKind::Member(inner, _, _)
            | ExpressionKind::Throw(inner)
            | ExpressionKind::Return(Some(inner)) => inner.get().levels().saturating_add(1),
            ExpressionKind::Lambda(lambda) => lambda.levels().saturating_add(1),
            ExpressionKind::Binary(_, left, right) | ExpressionKind::Index(left, right) => {
                left.get()
                    .levels()
                    .max(right.get().levels())
                    .saturating_add(1)
            }
            ExpressionKind::TypeCheck(value, _, written)
            | ExpressionKind::Cast(value, _, written) => {
                value.get().levels().saturating_add(1).max(written.levels())
            }
            ExpressionKind::Call(called, _, types, arguments) => {
                let callee = below_call(called.get(), called.get().levels());
                let held = callee.max(expressions_levels(arguments.as_slice()));
                held.saturating_add(1)
                    .max(arguments_levels(types.as_slice()))
            }
            ExpressionKind::If(condition, then, other) => {
                let mut most = condition.get().levels().max(then.levels());
                if let Some(other) = other {
                    most = most.max(other.levels());
                }
                most.saturating_add(1)
            }
            ExpressionKind::When(subject, entries) => {
                let mut most = entries_levels(entries.as_slice());
                if let Some(subject) = subject {
                    most = most.max(subject.get().levels());
                }
                most.saturating_add(1)
            }
            ExpressionKind::Try(block, catches, last) => {
                let mut most = block.levels().max(catches_levels(catches.as_slice()));
                if let Some(last) = last {
                    most = most.max(last.levels());
                }
                most.saturating_add(1)
            }
        }
    }
}

impl LambdaLiteral {
    /// How many levels the parameters and the body of the lambda literal have.
    #[cycle(levels)]
    fn levels(&self) -> u32
        ensures { result ≡ counted (spec.lambda_levels (lambda_tree self.now)) }
    {
        parameters_levels(self.parameters.as_slice()).max(self.body.levels())
    }
}

#[cycle(levels)]
fn expressions_levels(expressions: &[Expression]) -> u32
    ensures { result ≡ counted (spec.expressions_levels (expressions_of (map expression_tree expressions.now))) }
{
    let mut most = 0;
    for each in expressions {
        most = each.levels().max(most);
    }
    most
}

#[cycle(levels)]
fn parts_levels(parts: &[StringPart]) -> u32
    ensures { result ≡ counted (spec.parts_levels (parts_of (map part_tree parts.now))) }
{
    let mut most = 0;
    for part in parts {
        most = part.levels().max(most);
    }
    most
}

impl StringPart {
    /// How many levels the part holds. A name counts as the expression that it is short for.
    #[cycle(levels)]
    pub fn levels(&self) -> u32
        ensures { result ≡ counted (spec.part_levels (part_tree self.now)) }
    {
        match self {
            StringPart::Text(_) => 0,
            StringPart::NamePart(_) | StringPart::ThisPart => 1,
            StringPart::Hole(inner) => inner.get().levels(),
        }
    }
}

#[cycle(levels)]
fn entries_levels(entries: &[WhenEntry]) -> u32
    ensures { result ≡ counted (spec.entries_levels (entries_of (map entry_tree entries.now))) }
{
    let mut most = 0;
    for entry in entries {
        let held = conditions_levels(entry.conditions.as_slice()).max(entry.body.levels());
        most = held.saturating_add(1).max(most);
    }
    most
}

#[cycle(levels)]
fn conditions_levels(conditions: &[WhenCondition]) -> u32
    ensures { result ≡ counted (spec.conditions_levels (conditions_of (map condition_tree conditions.now))) }
{
    let mut most = 0;
    for condition in conditions {
        let levels = match condition {
            WhenCondition::Equals(inner) => inner.get().levels().saturating_add(1),
            WhenCondition::OfType(_, written) => written.levels(),
        };
        most = levels.max(most);
    }
    most
}

#[cycle(levels)]
fn catches_levels(catches: &[CatchBlock]) -> u32
    ensures { result ≡ counted (spec.catches_levels (catches_of (map catch_tree catches.now))) }
{
    let mut most = 0;
    for catch in catches {
        most = catch
            .exception
            .levels()
            .max(catch.body.levels().saturating_add(1))
            .max(most);
    }
    most
}

impl ControlStructureBody {
    /// How many levels the body has.
    #[cycle(levels)]
    pub fn levels(&self) -> u32
        ensures { result ≡ counted (spec.body_levels (body_tree self.now)) }
    {
        match self {
            ControlStructureBody::Braces(block) => block.levels(),
            ControlStructureBody::Single(statement) => statement.get().levels(),
        }
    }
}

impl Block {
    /// How many levels the block has.
    #[cycle(levels)]
    pub fn levels(&self) -> u32
        ensures { result ≡ counted (spec.block_levels (block_tree self.now)) }
    {
        let mut most = 0;
        for statement in self.statements.as_slice() {
            most = statement.levels().max(most);
        }
        most
    }
}

impl Statement {
    /// How many levels the statement has.
    #[cycle(levels)]
    pub fn levels(&self) -> u32
        ensures { result ≡ counted (spec.statement_levels (statement_tree self.now)) }
    {
        match &self.kind {
            StatementKind::Local(_, _, annotation, None) => annotation_levels(annotation).max(1),
            StatementKind::Local(_, _, annotation, Some(value)) => {
                annotation_levels(annotation).max(value.get().levels().saturating_add(1))
            }
            StatementKind::Assign(target, _, value) => {
                target
                    .get()
                    .levels()
                    .max(value.get().levels())
                    .saturating_add(1)
            }
            StatementKind::Step(target, _) => target.get().levels().saturating_add(1),
            StatementKind::While(condition, body) => condition
                .get()
                .levels()
                .max(body.levels())
                .saturating_add(1),
            StatementKind::DoWhile(block, condition) => {
                block
                    .levels()
                    .max(condition.get().levels())
                    .saturating_add(1)
            }
            StatementKind::For(_, first, _, bound, body) => {
                first
                    .get()
                    .levels()
                    .max(bound.get().levels())
                    .max(body.levels())
                    .saturating_add(1)
            }
            StatementKind::Evaluate(value) => value.get().levels(),
        }
    }
}
