//! A node of each kind is built, and its levels are counted.

ghost use Rattle.kt_tree.specs.Bodies.{expression_tree, statement_tree};
ghost use Rattle.kt_tree.specs.Levels.{levels, statement_levels};
ghost use Rattle.std.specs.Prelude.{◌≡◌, IfOk};

use kt_base::{Name, NoMemory, Pos};
use kt_tree::{AssignmentOperator, BinaryOperator, Expression, Literal, Statement, TypeReference};
use kt_tree_nodes::{blocks, expressions, statements, strings};
use sqlite_items::Items;
use std::alloc::Global;
use std::test::Fail;

const AT: Pos = Pos { line: 2, column: 5 };

fn name(alloc: Global) -> Result<Expression, NoMemory>
    ensures { IfOk result (λ e. levels (expression_tree e) ≡ 1) }
{
    Ok(expressions::name(AT, Name::of(alloc, b"a")?))
}

/// `a + a.b`: the member is one level over its name, and the sum one over the member.
fn sum(alloc: Global) -> Result<Expression, NoMemory>
    ensures { IfOk result (λ e. levels (expression_tree e) ≡ 3) }
{
    let member = expressions::member(alloc, name(alloc)?, false, Name::of(alloc, b"b")?)?;
    expressions::binary(alloc, BinaryOperator::Plus, name(alloc)?, member)
}

/// `"$a${a}"`: two parts of one level, which are a level of their own in the string.
fn string(alloc: Global) -> Result<Expression, NoMemory>
    ensures { IfOk result (λ e. levels (expression_tree e) ≡ 3) }
{
    let mut parts = Items::new(alloc);
    parts.push(strings::name_part(Name::of(alloc, b"a")?))?;
    parts.push(strings::hole(alloc, name(alloc)?)?)?;
    Ok(strings::template(AT, parts))
}

/// `while (a) a = null`: the assignment is one level over its operands, and the loop one over the assignment.
fn repeated(alloc: Global) -> Result<Statement, NoMemory>
    ensures { IfOk result (λ s. statement_levels (statement_tree s) ≡ 3) }
{
    let null = expressions::literal(AT, Literal::Null);
    let assign = statements::assign(alloc, name(alloc)?, AssignmentOperator::Set, null)?;
    let body = blocks::single(alloc, assign)?;
    statements::while_loop(alloc, AT, name(alloc)?, body)
}

/// `when (a) { is A -> { break } }`: the entry is one level over its body, and the `when` one over the entry.
fn choice(alloc: Global) -> Result<Expression, NoMemory>
    ensures { IfOk result (λ e. levels (expression_tree e) ≡ 3) }
{
    let mut conditions = Items::new(alloc);
    let written = TypeReference::Named(Name::of(alloc, b"A")?, Items::new(alloc));
    conditions.push(blocks::of_type(false, written))?;
    let mut held = Items::new(alloc);
    held.push(statements::evaluate(alloc, expressions::break_loop(AT))?)?;
    let body = blocks::braces(blocks::block(held, AT));
    let mut entries = Items::new(alloc);
    entries.push(blocks::entry(conditions, body))?;
    expressions::when(alloc, AT, Some(name(alloc)?), entries)
}

#[test]
fn levels_of_a_sum(rt: HostRuntime) -> Result<(), Fail> {
    let built = sum(rt.alloc())?;
    assert_eq!(rt; built.levels(), 3);
    Ok(())
}

#[test]
fn levels_of_a_string(rt: HostRuntime) -> Result<(), Fail> {
    let built = string(rt.alloc())?;
    assert_eq!(rt; built.levels(), 3);
    Ok(())
}

#[test]
fn levels_of_a_loop(rt: HostRuntime) -> Result<(), Fail> {
    let built = repeated(rt.alloc())?;
    assert_eq!(rt; built.levels(), 3);
    Ok(())
}

#[test]
fn levels_of_a_choice(rt: HostRuntime) -> Result<(), Fail> {
    let built = choice(rt.alloc())?;
    assert_eq!(rt; built.levels(), 3);
    Ok(())
}
