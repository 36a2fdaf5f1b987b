//! Nodes of expressions. Each says which tree it is seen as.

ghost use Rattle.kt_grammar.specs.Levels.{place};
ghost use Rattle.kt_tree.specs.Bodies as tree;
ghost use Rattle.kt_tree.specs.Bodies.{block_tree, body_tree, catch_tree, catches_of, entries_of, entry_tree, expression_tree, expressions_of, maybe_block, maybe_body, maybe_expression, parameter_tree};
ghost use Rattle.kt_tree.specs.Types.{maybe_type, type_tree};
ghost use Rattle.std.specs.Prelude.{◌≡◌, IfOk, map, option_map};

use kt_base::{Name, NoMemory, Pos};
use kt_tree::{
    BinaryOperator, Block, CatchBlock, ControlStructureBody, Expression, ExpressionKind,
    LambdaLiteral, LambdaParameter, Literal, PrefixOperator, TypeReference, WhenEntry,
};
use sqlite_items::{Boxed, Items};
use std::alloc::Global;

/// The place of an expression's first token.
pub fn place_of(value: &Expression) -> Pos
    ensures { result ≡ place (expression_tree value.now) }
{
    // By cases on the kind, as the place of a tree is: each variant of a tree carries the place of its expression.
    match &value.kind {
        ExpressionKind::Literal(_) => value.at,
        _ => value.at,
    }
}

pub(crate) fn maybe_boxed(
    alloc: Global,
    value: Option<Expression>,
) -> Result<Option<Boxed<Expression>>, NoMemory>
    ensures { IfOk result (λ boxed. boxed ≡ value) }
{
    match value {
        Some(value) => Ok(Some(Boxed::new(alloc, value)?)),
        None => Ok(None),
    }
}

/// The value in a box, beside what was made already. Without memory both are let go.
pub(crate) fn boxed_beside<T: Drop>(
    alloc: Global,
    value: Expression,
    made: T,
) -> Result<(Boxed<Expression>, T), NoMemory>
    ensures { IfOk result (λ both. (both.0 ≡ value) × (both.1 ≡ made)) }
{
    let boxed = Boxed::new(alloc, value)?;
    Ok((boxed, made))
}

/// A number, a character, `'true'`, `'false'` or `'null'`
pub fn literal(at: Pos, literal: Literal) -> Expression
    ensures { expression_tree result ≡ tree.literal at literal }
{
    Expression {
        at,
        kind: ExpressionKind::Literal(literal),
    }
}

/// `ID`
pub fn name(at: Pos, name: Name) -> Expression
    ensures { expression_tree result ≡ tree.name at name }
{
    Expression {
        at,
        kind: ExpressionKind::Name(name),
    }
}

/// `'this'`
pub fn this(at: Pos) -> Expression
    ensures { expression_tree result ≡ tree.this at }
{
    Expression {
        at,
        kind: ExpressionKind::This,
    }
}

/// `'(' expr ')'`
pub fn parenthesized(alloc: Global, at: Pos, inner: Expression) -> Result<Expression, NoMemory>
    ensures { IfOk result (λ e. expression_tree e ≡ tree.parenthesized at (expression_tree inner)) }
{
    let inner = Boxed::new(alloc, inner)?;
    Ok(Expression {
        at,
        kind: ExpressionKind::Parenthesized(inner),
    })
}

/// `ID (':' type)?`, a parameter of a lambda literal
pub fn parameter(name: Name, annotation: Option<TypeReference>) -> LambdaParameter
    ensures { parameter_tree result ≡ record { name = name; annotation = maybe_type annotation } }
{
    LambdaParameter { name, annotation }
}

/// `'{' (parameters '->')? statements '}'`
pub fn lambda(at: Pos, parameters: Items<LambdaParameter>, body: Block) -> Expression
    ensures { expression_tree result ≡ tree.lambda at
        (tree.lambda_of (map parameter_tree parameters) (block_tree body)) }
{
    Expression {
        at,
        kind: ExpressionKind::Lambda(LambdaLiteral { parameters, body }),
    }
}

/// `('-' | '!') operand`, at the place of the operator
pub fn prefix(
    alloc: Global,
    at: Pos,
    operator: PrefixOperator,
    operand: Expression,
) -> Result<Expression, NoMemory>
    ensures { IfOk result (λ e. expression_tree e ≡ tree.prefix at operator (expression_tree operand)) }
{
    let operand = Boxed::new(alloc, operand)?;
    Ok(Expression {
        at,
        kind: ExpressionKind::Prefix(operator, operand),
    })
}

/// `left operator right`
pub fn binary(
    alloc: Global,
    operator: BinaryOperator,
    left: Expression,
    right: Expression,
) -> Result<Expression, NoMemory>
    ensures { IfOk result
        (λ e. expression_tree e ≡ tree.binary (place (expression_tree left)) operator (expression_tree left)
        (expression_tree right)) }
{
    let at = place_of(&left);
    let (left, right) = boxed_beside(alloc, left, right)?;
    let (right, left) = boxed_beside(alloc, right, left)?;
    Ok(Expression {
        at,
        kind: ExpressionKind::Binary(operator, left, right),
    })
}

/// `value 'is' type`, and `value '!is' type` where it is negated
pub fn type_check(
    alloc: Global,
    value: Expression,
    negated: bool,
    written: TypeReference,
) -> Result<Expression, NoMemory>
    ensures { IfOk result
        (λ e. expression_tree e ≡ tree.type_check (place (expression_tree value)) (expression_tree value) negated
        (type_tree written)) }
{
    let at = place_of(&value);
    let value = Boxed::new(alloc, value)?;
    Ok(Expression {
        at,
        kind: ExpressionKind::TypeCheck(value, negated, written),
    })
}

/// `value 'as' type`, and `value 'as?' type` where it is safe
pub fn cast(
    alloc: Global,
    value: Expression,
    safe: bool,
    written: TypeReference,
) -> Result<Expression, NoMemory>
    ensures { IfOk result
        (λ e. expression_tree e ≡ tree.cast (place (expression_tree value)) (expression_tree value) safe
        (type_tree written)) }
{
    let at = place_of(&value);
    let value = Boxed::new(alloc, value)?;
    Ok(Expression {
        at,
        kind: ExpressionKind::Cast(value, safe, written),
    })
}

/// `value '!!'`
pub fn not_null(alloc: Global, value: Expression) -> Result<Expression, NoMemory>
    ensures { IfOk result
        (λ e. expression_tree e ≡ tree.not_null (place (expression_tree value)) (expression_tree value)) }
{
    let at = place_of(&value);
    let value = Boxed::new(alloc, value)?;
    Ok(Expression {
        at,
        kind: ExpressionKind::NotNull(value),
    })
}

/// `value '.' ID`, and `value '?.' ID` where it is safe
pub fn member(
    alloc: Global,
    value: Expression,
    safe: bool,
    name: Name,
) -> Result<Expression, NoMemory>
    ensures { IfOk result
        (λ e. expression_tree e ≡ tree.member (place (expression_tree value)) (expression_tree value) safe name) }
{
    let at = place_of(&value);
    let value = Boxed::new(alloc, value)?;
    Ok(Expression {
        at,
        kind: ExpressionKind::Member(value, safe, name),
    })
}

/// `value '[' index ']'`
pub fn index(alloc: Global, value: Expression, index: Expression) -> Result<Expression, NoMemory>
    ensures { IfOk result
        (λ e. expression_tree e ≡ tree.index (place (expression_tree value)) (expression_tree value)
        (expression_tree index)) }
{
    let at = place_of(&value);
    let (value, index) = boxed_beside(alloc, value, index)?;
    let (index, value) = boxed_beside(alloc, index, value)?;
    Ok(Expression {
        at,
        kind: ExpressionKind::Index(value, index),
    })
}

/// `called types? '(' arguments ')'`, where `types` or `(` stand at `start`, a lambda behind the call being the last of the
/// arguments
pub fn call(
    alloc: Global,
    called: Expression,
    start: Pos,
    types: Items<TypeReference>,
    arguments: Items<Expression>,
) -> Result<Expression, NoMemory>
    ensures { IfOk result
        (λ e. expression_tree e ≡ tree.call (place (expression_tree called)) (expression_tree called) start
        (map type_tree types) (expressions_of (map expression_tree arguments))) }
{
    let at = place_of(&called);
    let called = Boxed::new(alloc, called)?;
    Ok(Expression {
        at,
        kind: ExpressionKind::Call(called, start, types, arguments),
    })
}

/// `'if' '(' condition ')' then ('else' otherwise)?`
pub fn if_else(
    alloc: Global,
    at: Pos,
    condition: Expression,
    then: ControlStructureBody,
    otherwise: Option<ControlStructureBody>,
) -> Result<Expression, NoMemory>
    ensures { IfOk result
        (λ e. expression_tree e ≡ tree.if_else at (expression_tree condition) (body_tree then)
        (maybe_body (option_map body_tree otherwise))) }
{
    let condition = Boxed::new(alloc, condition)?;
    Ok(Expression {
        at,
        kind: ExpressionKind::If(condition, then, otherwise),
    })
}

/// `'when' ('(' subject ')')? '{' entries '}'`
pub fn when(
    alloc: Global,
    at: Pos,
    subject: Option<Expression>,
    entries: Items<WhenEntry>,
) -> Result<Expression, NoMemory>
    ensures { IfOk result
        (λ e. expression_tree e ≡ tree.when at (maybe_expression (option_map expression_tree subject))
        (entries_of (map entry_tree entries))) }
{
    let subject = maybe_boxed(alloc, subject)?;
    Ok(Expression {
        at,
        kind: ExpressionKind::When(subject, entries),
    })
}

/// `'try' block catches ('finally' last)?`
pub fn try_catch(
    at: Pos,
    block: Block,
    catches: Items<CatchBlock>,
    last: Option<Block>,
) -> Expression
    ensures { expression_tree result ≡ tree.try_catch at (block_tree block) (catches_of (map catch_tree catches))
        (maybe_block (option_map block_tree last)) }
{
    Expression {
        at,
        kind: ExpressionKind::Try(block, catches, last),
    }
}

/// `'throw' expr`
pub fn throw(alloc: Global, at: Pos, exception: Expression) -> Result<Expression, NoMemory>
    ensures { IfOk result (λ e. expression_tree e ≡ tree.throw at (expression_tree exception)) }
{
    let exception = Boxed::new(alloc, exception)?;
    Ok(Expression {
        at,
        kind: ExpressionKind::Throw(exception),
    })
}

/// `'return' expr?`
pub fn return_with(
    alloc: Global,
    at: Pos,
    value: Option<Expression>,
) -> Result<Expression, NoMemory>
    ensures { IfOk result
        (λ e. expression_tree e ≡ tree.return at (maybe_expression (option_map expression_tree value))) }
{
    let value = maybe_boxed(alloc, value)?;
    Ok(Expression {
        at,
        kind: ExpressionKind::Return(value),
    })
}

/// `'break'`
pub fn break_loop(at: Pos) -> Expression
    ensures { expression_tree result ≡ tree.break at }
{
    Expression {
        at,
        kind: ExpressionKind::Break,
    }
}

/// `'continue'`
pub fn continue_loop(at: Pos) -> Expression
    ensures { expression_tree result ≡ tree.continue at }
{
    Expression {
        at,
        kind: ExpressionKind::Continue,
    }
}
