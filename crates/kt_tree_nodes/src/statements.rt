//! Nodes of statements. Each says which tree it is seen as.

ghost use Rattle.kt_grammar.specs.Levels.{place};
ghost use Rattle.kt_tree.specs.Bodies as tree;
ghost use Rattle.kt_tree.specs.Bodies.{block_tree, body_tree, expression_tree, maybe_expression, statement_tree};
ghost use Rattle.kt_tree.specs.Types.{maybe_type};
ghost use Rattle.std.specs.Prelude.{◌≡◌, IfOk, option_map};

use crate::expressions::{boxed_beside, maybe_boxed, place_of};
use kt_base::{Name, NoMemory, Pos};
use kt_tree::{
    AssignmentOperator, Block, ControlStructureBody, Expression, RangeOperator, Statement,
    StatementKind, StepOperator, TypeReference,
};
use sqlite_items::Boxed;
use std::alloc::Global;

/// `('val' | 'var') ID (':' type)? ('=' expr)?`, a `var` where it is variable
pub fn local(
    alloc: Global,
    at: Pos,
    variable: bool,
    name: Name,
    annotation: Option<TypeReference>,
    initializer: Option<Expression>,
) -> Result<Statement, NoMemory>
    ensures { IfOk result
        (λ s. statement_tree s ≡ tree.local at variable name (maybe_type annotation)
        (maybe_expression (option_map expression_tree initializer))) }
{
    let initializer = maybe_boxed(alloc, initializer)?;
    Ok(Statement {
        at,
        kind: StatementKind::Local(variable, name, annotation, initializer),
    })
}

/// `target ('=' | '+=' | '-=' | '*=' | '/=' | '%=') expr`
pub fn assign(
    alloc: Global,
    target: Expression,
    operator: AssignmentOperator,
    value: Expression,
) -> Result<Statement, NoMemory>
    ensures { IfOk result
        (λ s. statement_tree s ≡ tree.assign (place (expression_tree target)) (expression_tree target) operator
        (expression_tree value)) }
{
    let at = place_of(&target);
    let (target, value) = boxed_beside(alloc, target, value)?;
    let (value, target) = boxed_beside(alloc, value, target)?;
    Ok(Statement {
        at,
        kind: StatementKind::Assign(target, operator, value),
    })
}

/// `target ('++' | '--')`
pub fn step(
    alloc: Global,
    target: Expression,
    operator: StepOperator,
) -> Result<Statement, NoMemory>
    ensures { IfOk result
        (λ s. statement_tree s ≡ tree.step (place (expression_tree target)) (expression_tree target) operator) }
{
    let at = place_of(&target);
    let target = Boxed::new(alloc, target)?;
    Ok(Statement {
        at,
        kind: StatementKind::Step(target, operator),
    })
}

/// `'while' '(' condition ')' body`
pub fn while_loop(
    alloc: Global,
    at: Pos,
    condition: Expression,
    body: ControlStructureBody,
) -> Result<Statement, NoMemory>
    ensures { IfOk result (λ s. statement_tree s ≡ tree.while at (expression_tree condition) (body_tree body)) }
{
    let condition = Boxed::new(alloc, condition)?;
    Ok(Statement {
        at,
        kind: StatementKind::While(condition, body),
    })
}

/// `'do' block 'while' '(' condition ')'`
pub fn do_while(
    alloc: Global,
    at: Pos,
    body: Block,
    condition: Expression,
) -> Result<Statement, NoMemory>
    ensures { IfOk result (λ s. statement_tree s ≡ tree.do_while at (block_tree body) (expression_tree condition)) }
{
    let condition = Boxed::new(alloc, condition)?;
    Ok(Statement {
        at,
        kind: StatementKind::DoWhile(body, condition),
    })
}

/// `'for' '(' ID 'in' first ('..' | 'until') bound ')' body`
pub fn for_loop(
    alloc: Global,
    at: Pos,
    name: Name,
    first: Expression,
    operator: RangeOperator,
    bound: Expression,
    body: ControlStructureBody,
) -> Result<Statement, NoMemory>
    ensures { IfOk result
        (λ s. statement_tree s ≡ tree.for at name (expression_tree first) operator (expression_tree bound)
        (body_tree body)) }
{
    let (first, (bound, body)) = boxed_beside(alloc, first, (bound, body))?;
    let (bound, (first, body)) = boxed_beside(alloc, bound, (first, body))?;
    Ok(Statement {
        at,
        kind: StatementKind::For(name, first, operator, bound, body),
    })
}

/// `expr`
pub fn evaluate(alloc: Global, value: Expression) -> Result<Statement, NoMemory>
    ensures { IfOk result
        (λ s. statement_tree s ≡ tree.evaluate (place (expression_tree value)) (expression_tree value)) }
{
    let at = place_of(&value);
    let value = Boxed::new(alloc, value)?;
    Ok(Statement {
        at,
        kind: StatementKind::Evaluate(value),
    })
}
