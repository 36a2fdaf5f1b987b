//! The stages of small files.

use kt_base::{Name, NoMemory, Pos};
use kt_tree::{
    Block, ConstantDeclaration, ConstantValue, Declaration, Expression, ExpressionKind, FileTree,
    FunctionBody, FunctionDeclaration, FunctionModifiers, LambdaLiteral, TypeReference,
};
use sqlite_items::{Boxed, Items};
use std::alloc::Global;
use std::test::Fail;

const AT: Pos = Pos { line: 1, column: 1 };

fn file_of(alloc: Global, declaration: Declaration) -> Result<FileTree, NoMemory> {
    let mut declarations = Items::new(alloc);
    declarations.push(declaration)?;
    Ok(FileTree { declarations })
}

/// The stage of `const val c: TYPE = ""`.
fn stage_of_type(alloc: Global, written: TypeReference) -> Result<u32, NoMemory> {
    let constant = ConstantDeclaration {
        at: AT,
        name: Name::of(alloc, b"c")?,
        annotation: Some(written),
        value: ConstantValue::Text(Items::new(alloc)),
    };
    Ok(file_of(alloc, Declaration::Constant(constant))?.stage())
}

/// The stage of a file with this name in it.
fn stage_of_name(alloc: Global, name: Name) -> Result<u32, NoMemory> {
    stage_of_type(alloc, TypeReference::Named(name, Items::new(alloc)))
}

/// The stage of a file with the type `NAME<Int>` in it.
fn stage_of_argument(alloc: Global, name: Name) -> Result<u32, NoMemory> {
    let int = Name::of(alloc, b"Int")?;
    let mut arguments = Items::new(alloc);
    arguments.push(TypeReference::Named(int, Items::new(alloc)))?;
    stage_of_type(alloc, TypeReference::Named(name, arguments))
}

/// The stage of `fun f() = EXPRESSION`, or of `suspend fun`.
fn stage_of_function(
    alloc: Global,
    is_suspend: bool,
    kind: ExpressionKind,
) -> Result<u32, NoMemory> {
    let function = FunctionDeclaration {
        at: AT,
        modifiers: FunctionModifiers {
            is_override: false,
            is_open: false,
            is_abstract: false,
            is_suspend,
        },
        type_parameters: Items::new(alloc),
        name: Name::of(alloc, b"f")?,
        parameters: Items::new(alloc),
        result: None,
        body: Some(FunctionBody::Result(Expression { at: AT, kind })),
    };
    Ok(file_of(alloc, Declaration::Function(function))?.stage())
}

fn thrown(alloc: Global) -> Result<ExpressionKind, NoMemory> {
    let kind = ExpressionKind::This;
    Ok(ExpressionKind::Throw(Boxed::new(alloc, Expression { at: AT, kind })?))
}

fn empty_lambda(alloc: Global) -> ExpressionKind {
    let body = Block {
        statements: Items::new(alloc),
        end: AT,
    };
    ExpressionKind::Lambda(LambdaLiteral {
        parameters: Items::new(alloc),
        body,
    })
}

#[test]
fn names_have_stages(rt: HostRuntime) -> Result<(), Fail> {
    let alloc = rt.alloc();
    assert_eq!(rt; stage_of_name(alloc, Name::of(alloc, b"Int")?)?, 3);
    assert_eq!(rt; stage_of_name(alloc, Name::of(alloc, b"launch")?)?, 9);
    assert_eq!(rt;
        stage_of_name(alloc, Name::of(alloc, b"suspendCoroutine")?)?,
        9
    );
    assert_eq!(rt; stage_of_name(alloc, Name::of(alloc, b"Continuation")?)?, 9);
    assert_eq!(rt; stage_of_name(alloc, Name::of(alloc, b"Throwable")?)?, 8);
    assert_eq!(rt; stage_of_name(alloc, Name::of(alloc, b"Exception")?)?, 8);
    Ok(())
}

#[test]
fn type_arguments_have_a_stage(rt: HostRuntime) -> Result<(), Fail> {
    let alloc = rt.alloc();
    assert_eq!(rt; stage_of_argument(alloc, Name::of(alloc, b"Array")?)?, 3);
    assert_eq!(rt;
        stage_of_argument(alloc, Name::of(alloc, b"arrayOfNulls")?)?,
        3
    );
    assert_eq!(rt; stage_of_argument(alloc, Name::of(alloc, b"Box")?)?, 4);
    assert_eq!(rt;
        stage_of_argument(alloc, Name::of(alloc, b"Continuation")?)?,
        9
    );
    Ok(())
}

#[test]
fn bodies_have_stages(rt: HostRuntime) -> Result<(), Fail> {
    let alloc = rt.alloc();
    assert_eq!(rt; stage_of_function(alloc, false, ExpressionKind::Break)?, 3);
    assert_eq!(rt; stage_of_function(alloc, false, ExpressionKind::This)?, 4);
    assert_eq!(rt; stage_of_function(alloc, false, thrown(alloc)?)?, 8);
    assert_eq!(rt; stage_of_function(alloc, false, empty_lambda(alloc))?, 8);
    assert_eq!(rt; stage_of_function(alloc, true, ExpressionKind::Break)?, 9);
    Ok(())
}
