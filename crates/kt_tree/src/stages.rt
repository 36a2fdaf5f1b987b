//! The stage of a tree: how much of the language it asks for.
//!
//! A node has a stage by itself, or 0 where it asks for none, and a tree has the greatest of its nodes'. Stage 9 has
//! the coroutines, 8 lambdas and exceptions, 4 classes and generics. A file has at least stage 3.

ghost use Rattle.kt_tree.specs.Bodies.{
  expression_tree,
  statement_tree,
  block_tree,
  body_tree,
  part_tree,
  condition_tree,
  entry_tree,
  catch_tree,
  expressions_of,
  parts_of,
  conditions_of,
  entries_of,
  catches_of,
};
ghost use Rattle.kt_tree.specs.Bodies.{parameter_tree};
ghost use Rattle.kt_tree.specs.Levels.{most};
ghost use Rattle.kt_tree.specs.Stages as spec;
ghost use Rattle.kt_tree.specs.Types.{type_tree, types_of, maybe_type};
ghost use Rattle.std.specs.Prelude.{◌≡◌, map};

use crate::bodies::{
    Block, CatchBlock, ControlStructureBody, Expression, ExpressionKind, LambdaParameter,
    Statement, StatementKind, StringPart, WhenCondition, WhenEntry,
};
use crate::types::TypeReference;
use kt_base::Name;

/// Whether a name is spelled so.
fn is_word(name: &[u8], word: &[u8]) -> bool
    ensures { result ≡ spec.is_word name.now word.now }
{
    name == word
}

#[tactic(auto, unfolding(crate::specs::Stages::is_of_coroutines))]
fn is_of_coroutines(name: &[u8]) -> bool
    ensures { result ≡ spec.is_of_coroutines name.now }
{
    is_word(name, b"launch") || is_word(name, b"suspendCoroutine") || is_word(name, b"Continuation")
}

#[tactic(auto, unfolding(crate::specs::Stages::is_throwable))]
fn is_throwable(name: &[u8]) -> bool
    ensures { result ≡ spec.is_throwable name.now }
{
    is_word(name, b"Throwable")
        || is_word(name, b"Exception")
        || is_word(name, b"RuntimeException")
        || is_word(name, b"IllegalStateException")
        || is_word(name, b"IllegalArgumentException")
        || is_word(name, b"ArithmeticException")
        || is_word(name, b"NullPointerException")
        || is_word(name, b"ClassCastException")
        || is_word(name, b"NegativeArraySizeException")
        || is_word(name, b"IndexOutOfBoundsException")
        || is_word(name, b"ArrayIndexOutOfBoundsException")
        || is_word(name, b"StringIndexOutOfBoundsException")
}

/// The stage of a name by itself, wherever it stands.
pub(crate) fn name_stage(name: &Name) -> u32
    ensures { result ≡ spec.name_stage name.now }
{
    if is_of_coroutines(name.as_bytes()) {
        9
    } else if is_throwable(name.as_bytes()) {
        8
    } else {
        0
    }
}

/// The stage of a type argument behind this name, by itself.
#[tactic(auto, unfolding(crate::specs::Stages::argument_stage))]
fn argument_stage(name: &Name) -> u32
    ensures { result ≡ spec.argument_stage name.now }
{
    let name = name.as_bytes();
    if is_word(name, b"Array") || is_word(name, b"arrayOfNulls") {
        0
    } else {
        4
    }
}

impl TypeReference {
    /// The stage of the type.
    #[cycle(type_stages)]
    pub(crate) fn stage(&self) -> u32
        ensures { result ≡ spec.type_stage (type_tree self.now) }
    {
        match self {
            TypeReference::Named(name, arguments) => {
                name_stage(name).max(types_stage(argument_stage(name), arguments.as_slice()))
            }
            TypeReference::Function(suspends, parameters, outcome) => {
                let held = types_stage(0, parameters.as_slice()).max(outcome.get().stage());
                let by_itself = if *suspends { 9 } else { 8 };
                held.max(by_itself)
            }
            TypeReference::Nullable(inner) | TypeReference::Parenthesized(inner) => {
                inner.get().stage()
            }
        }
    }
}

/// The stage of types each of which has the stage `here` by where it stands.
#[cycle(type_stages)]
pub(crate) fn types_stage(here: u32, types: &[TypeReference]) -> u32
    ensures { result ≡ spec.types_stage here (types_of (map type_tree types.now)) }
{
    let mut most = 0;
    for each in types {
        most = each.stage().max(here).max(most);
    }
    most
}

/// The stage of a type, where one is written.
pub(crate) fn annotation_stage(annotation: &Option<TypeReference>) -> u32
    ensures { result ≡ spec.maybe_type_stage (maybe_type annotation.now) }
{
    match annotation {
        Some(written) => written.stage(),
        None => 0,
    }
}

fn parameters_stage(parameters: &[LambdaParameter]) -> u32
    ensures { result ≡ most (map spec.parameter_stage (map parameter_tree parameters.now)) }
{
    let mut most = 0;
    for parameter in parameters {
        most = name_stage(&parameter.name)
            .max(annotation_stage(&parameter.annotation))
            .max(most);
    }
    most
}

/// The stage of a type argument of a call of this, by itself.
fn called_argument_stage(called: &Expression) -> u32
    ensures { result ≡ spec.called_argument_stage (expression_tree called.now) }
{
    match &called.kind {
        ExpressionKind::Name(name) | ExpressionKind::Member(_, _, name) => argument_stage(name),
        _ => 4,
    }
}

impl Expression {
    /// The stage of the expression.
    #[cycle(stages)]
    pub(crate) fn stage(&self) -> u32
        ensures { result ≡ spec.stage (expression_tree self.now) }
    {
        match &self.kind {
            ExpressionKind::Literal(_)
            | ExpressionKind::Break
            | ExpressionKind::Continue
            | ExpressionKind::Return(None) => 0,
            ExpressionKind::Template(parts) => parts_stage(parts.as_slice()),
            ExpressionKind::Name(name) => name_stage(name),
            ExpressionKind::This => 4,
            ExpressionKind::Parenthesized(inner)
            | ExpressionKind::Prefix(_, inner)
            | ExpressionKind::NotNull(inner)
            | ExpressionKind::Return(Some(inner)) => inner.get().stage(),
            ExpressionKind::Throw(inner) => inner.get().stage().max(8),
            ExpressionKind::Lambda(lambda) => {
                let parameters = parameters_stage(lambda.parameters.as_slice());
                parameters.max(lambda.body.stage()).max(8)
            }
            ExpressionKind::Member(inner, _, name) => inner.get().stage().max(name_stage(name)),
            ExpressionKind::Binary(_, left, right) | ExpressionKind::Index(left, right) => {
                left.get().stage().max(right.get().stage())
            }
            ExpressionKind::TypeCheck(value, _, written)
            | ExpressionKind::Cast(value, _, written) => value.get().stage().max(written.stage()),
            ExpressionKind::Call(called, _, types, arguments) => {
                let types = types_stage(called_argument_stage(called.get()), types.as_slice());
                let arguments = expressions_stage(arguments.as_slice());
                called.get().stage().max(types.max(arguments))
            }
            ExpressionKind::If(condition, then, other) => {
                let mut most = condition.get().stage().max(then.stage());
                if let Some(other) = other {
                    most = most.max(other.stage());
                }
                most
            }
            ExpressionKind::When(subject, entries) => {
                let mut most = entries_stage(entries.as_slice());
                if let Some(subject) = subject {
                    most = most.max(subject.get().stage());
                }
                most
            }
            ExpressionKind::Try(block, catches, last) => {
                let mut most = block.stage().max(catches_stage(catches.as_slice()));
                if let Some(last) = last {
                    most = most.max(last.stage());
                }
                most.max(8)
            }
        }
    }
}

#[cycle(stages)]
pub(crate) fn expressions_stage(expressions: &[Expression]) -> u32
    ensures { result ≡ spec.expressions_stage (expressions_of (map expression_tree expressions.now)) }
{
    let mut most = 0;
    for each in expressions {
        most = each.stage().max(most);
    }
    most
}

#[cycle(stages)]
fn parts_stage(parts: &[StringPart]) -> u32
    ensures { result ≡ spec.parts_stage (parts_of (map part_tree parts.now)) }
{
    let mut most = 0;
    for part in parts {
        let held = match part {
            StringPart::Text(_) => 0,
            StringPart::NamePart(name) => name_stage(name),
            StringPart::ThisPart => 4,
            StringPart::Hole(inner) => inner.get().stage(),
        };
        most = held.max(most);
    }
    most
}

#[cycle(stages)]
fn entries_stage(entries: &[WhenEntry]) -> u32
    ensures { result ≡ spec.entries_stage (entries_of (map entry_tree entries.now)) }
{
    let mut most = 0;
    for entry in entries {
        most = conditions_stage(entry.conditions.as_slice())
            .max(entry.body.stage())
            .max(most);
    }
    most
}

#[cycle(stages)]
fn conditions_stage(conditions: &[WhenCondition]) -> u32
    ensures { result ≡ spec.conditions_stage (conditions_of (map condition_tree conditions.now)) }
{
    let mut most = 0;
    for condition in conditions {
        let held = match condition {
            WhenCondition::Equals(inner) => inner.get().stage(),
            WhenCondition::OfType(_, written) => written.stage(),
        };
        most = held.max(most);
    }
    most
}

#[cycle(stages)]
fn catches_stage(catches: &[CatchBlock]) -> u32
    ensures { result ≡ spec.catches_stage (catches_of (map catch_tree catches.now)) }
{
    let mut most = 0;
    for catch in catches {
        let held = catch.exception.stage().max(catch.body.stage());
        most = name_stage(&catch.name).max(held).max(most);
    }
    most
}

impl ControlStructureBody {
    /// The stage of the body.
    #[cycle(stages)]
    pub(crate) fn stage(&self) -> u32
        ensures { result ≡ spec.body_stage (body_tree self.now) }
    {
        match self {
            ControlStructureBody::Braces(block) => block.stage(),
            ControlStructureBody::Single(statement) => statement.get().stage(),
        }
    }
}

impl Block {
    /// The stage of the block.
    #[cycle(stages)]
    pub(crate) fn stage(&self) -> u32
        ensures { result ≡ spec.block_stage (block_tree self.now) }
    {
        let mut most = 0;
        for statement in self.statements.as_slice() {
            most = statement.stage().max(most);
        }
        most
    }
}

impl Statement {
    /// The stage of the statement.
    #[cycle(stages)]
    pub(crate) fn stage(&self) -> u32
        ensures { result ≡ spec.statement_stage (statement_tree self.now) }
    {
        match &self.kind {
            StatementKind::Local(_, name, annotation, None) => {
                name_stage(name).max(annotation_stage(annotation))
            }
            StatementKind::Local(_, name, annotation, Some(value)) => {
                let held = annotation_stage(annotation).max(value.get().stage());
                name_stage(name).max(held)
            }
            StatementKind::Assign(target, _, value) => {
                target.get().stage().max(value.get().stage())
            }
            StatementKind::Step(target, _) => target.get().stage(),
            StatementKind::While(condition, body) => condition.get().stage().max(body.stage()),
            StatementKind::DoWhile(block, condition) => block.stage().max(condition.get().stage()),
            StatementKind::For(name, first, _, bound, body) => {
                let bounds = first.get().stage().max(bound.get().stage());
                name_stage(name).max(bounds).max(body.stage())
            }
            StatementKind::Evaluate(value) => value.get().stage(),
        }
    }
}
