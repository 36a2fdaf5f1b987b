//! Trees of great width are built, walked and dropped.

use kt_base::{Name, NoMemory, Pos};
use kt_tree::{
    Block, Declaration, EnumDeclaration, Expression, ExpressionKind, FileTree, Statement,
    StatementKind,
};
use sqlite_items::{Boxed, Items};
use std::alloc::Global;
use std::test::Fail;

const AT: Pos = Pos { line: 1, column: 1 };

fn break_statement(alloc: Global) -> Result<Statement, NoMemory> {
    let value = Boxed::new(
        alloc,
        Expression {
            at: AT,
            kind: ExpressionKind::Break,
        },
    )?;
    Ok(Statement {
        at: AT,
        kind: StatementKind::Evaluate(value),
    })
}

/// A block of so many statements.
fn wide_block(alloc: Global, count: u32) -> Result<Block, NoMemory> {
    let mut statements = Items::new(alloc);
    for _turn in 0..count {
        statements.push(break_statement(alloc)?)?;
    }
    Ok(Block {
        statements,
        end: AT,
    })
}

fn empty_enum(alloc: Global) -> Result<Declaration, NoMemory> {
    let name = Name::of(alloc, b"E")?;
    Ok(Declaration::Enum(EnumDeclaration {
        at: AT,
        name,
        entries: Items::new(alloc),
    }))
}

/// A file of so many declarations.
fn wide_file(alloc: Global, count: u32) -> Result<FileTree, NoMemory> {
    let mut declarations = Items::new(alloc);
    for _turn in 0..count {
        declarations.push(empty_enum(alloc)?)?;
    }
    Ok(FileTree { declarations })
}

#[test]
fn wide_trees(rt: HostRuntime) -> Result<(), Fail> {
    let alloc = rt.alloc();
    let block = wide_block(alloc, 100_000)?;
    assert_eq!(rt; block.statements.len(), 100_000);
    assert_eq!(rt; block.levels(), 1);
    let file = wide_file(alloc, 100_000)?;
    assert_eq!(rt; file.declarations.len(), 100_000);
    assert_eq!(rt; file.levels(), 0);
    Ok(())
}
