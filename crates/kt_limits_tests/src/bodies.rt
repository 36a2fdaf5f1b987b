//! Bodies of the tables.

use kt_base::{Name, NoMemory, Pos, Text16};
use kt_tree::TextPart;
use kt_typed::{
    BuiltIn, Callee, Capture, CaptureSource, LocalKind, TypedCall, TypedExpression, TypedFun,
    TypedKind, TypedLiteral, TypedLocal, TypedPart, TypedStatement, TypedStatementKind,
};
use kt_types_tree::{KtType, TypeConstructor};
use sqlite_items::{Boxed, Items};
use std::alloc::Global;

/// The type of everything in the tables: no limit looks at it.
pub fn any_type(alloc: Global) -> KtType {
    KtType::of(false, TypeConstructor::Int, Items::new(alloc))
}

/// A name of so many letters.
pub fn name(alloc: Global, length: usize) -> Result<Name, NoMemory> {
    let mut letters = Vec::new(alloc);
    for _ in 0..length {
        letters.push(b'a')?;
    }
    if letters.as_slice().is_ascii() {
        Name::of(alloc, letters.as_slice())
    } else {
        Err(NoMemory)
    }
}

/// A text of one code unit, so often.
pub fn text(alloc: Global, unit: u16, length: usize) -> Result<Text16, NoMemory> {
    let mut units = Vec::new(alloc);
    for _ in 0..length {
        units.push(unit)?;
    }
    Ok(Text16::from_units(units))
}

fn expression(alloc: Global, kind: TypedKind) -> TypedExpression {
    TypedExpression {
        of_type: any_type(alloc),
        kind,
    }
}

/// `println` of arguments.
fn println(alloc: Global, arguments: Items<TypedExpression>) -> TypedKind {
    TypedKind::Call(TypedCall {
        callee: Callee::BuiltIn(BuiltIn::Println),
        type_arguments: Items::new(alloc),
        arguments,
        suspends: false,
        suffix: Pos { line: 1, column: 1 },
    })
}

/// An expression as a statement.
fn evaluated(alloc: Global, at: Pos, kind: TypedKind) -> Result<TypedStatement, NoMemory> {
    let value = Boxed::new(alloc, expression(alloc, kind))?;
    Ok(TypedStatement {
        at,
        kind: TypedStatementKind::Evaluate(value),
    })
}

/// `println()`, so often, on one line, each in a column of its own.
pub fn prints(alloc: Global, line: u32, count: u32) -> Result<Items<TypedStatement>, NoMemory> {
    let mut statements = Items::new(alloc);
    for column in 0..count {
        let at = Pos {
            line,
            column: column.saturating_add(1),
        };
        statements.push(evaluated(alloc, at, println(alloc, Items::new(alloc)))?)?;
    }
    Ok(statements)
}

/// `println(c)` of a captured `c`, so often, behind others.
fn captured_prints(
    alloc: Global,
    capture: u32,
    count: u32,
    start: Items<TypedStatement>,
) -> Result<Items<TypedStatement>, NoMemory> {
    let mut statements = start;
    for _ in 0..count {
        let mut arguments = Items::new(alloc);
        arguments.push(expression(alloc, TypedKind::Captured(capture)))?;
        let at = Pos { line: 5, column: 1 };
        statements.push(evaluated(alloc, at, println(alloc, arguments))?)?;
    }
    Ok(statements)
}

/// `println(a)` and `println(b)`, 165 times each, and `println()` so often.
pub fn wide_statements(alloc: Global, more: u32) -> Result<Items<TypedStatement>, NoMemory> {
    let of_a = captured_prints(alloc, 0, 165, prints(alloc, 5, more)?)?;
    captured_prints(alloc, 1, 165, of_a)
}

/// Locals, so many, with names of so many letters.
pub fn locals(alloc: Global, count: u32, length: usize) -> Result<Items<TypedLocal>, NoMemory> {
    let mut locals = Items::new(alloc);
    for _ in 0..count {
        locals.push(TypedLocal {
            name: name(alloc, length)?,
            kind: LocalKind::Val,
            declared: any_type(alloc),
        })?;
    }
    Ok(locals)
}

fn captures(alloc: Global, count: u32) -> Result<Items<Capture>, NoMemory> {
    let mut captures = Items::new(alloc);
    for number in 0..count {
        captures.push(Capture {
            source: CaptureSource::Local(number),
            is_variable: false,
            declared: any_type(alloc),
        })?;
    }
    Ok(captures)
}

/// A body with parameters, locals and statements.
pub fn body(
    alloc: Global,
    parameters: u32,
    locals: Items<TypedLocal>,
    captures: Items<Capture>,
    statements: Items<TypedStatement>,
) -> TypedFun {
    TypedFun {
        at: Pos { line: 1, column: 1 },
        is_suspend: false,
        captures,
        parameters,
        locals,
        result: any_type(alloc),
        statements,
    }
}

/// A function of its statements alone.
pub fn plain_body(alloc: Global, statements: Items<TypedStatement>) -> TypedFun {
    body(alloc, 0, Items::new(alloc), Items::new(alloc), statements)
}

/// A lambda: how many captures, parameters and locals it has, and how long its names are.
#[derive(Clone, Copy)]
pub struct Lambda {
    pub captures: u32,
    pub parameters: u32,
    pub name_length: usize,
}

/// The lambda with its statements.
pub fn make_lambda(
    alloc: Global,
    shape: Lambda,
    statements: Items<TypedStatement>,
) -> Result<TypedFun, NoMemory> {
    let parameters = locals(alloc, shape.parameters, shape.name_length)?;
    let captured = captures(alloc, shape.captures)?;
    Ok(body(alloc, shape.parameters, parameters, captured, statements))
}

/// A lambda literal as a statement at a place.
pub fn lambda_statement(
    alloc: Global,
    at: Pos,
    body: TypedFun,
) -> Result<TypedStatement, NoMemory> {
    let boxed = Boxed::new(alloc, body)?;
    evaluated(alloc, at, TypedKind::Lambda(0, boxed))
}

/// A declaration of a local with a literal.
pub fn declaration(alloc: Global, at: Pos, local: u32) -> Result<TypedStatement, NoMemory> {
    let literal = expression(alloc, TypedKind::Literal(TypedLiteral::Int(1)));
    let value = Boxed::new(alloc, literal)?;
    Ok(TypedStatement {
        at,
        kind: TypedStatementKind::Declare(local, Some(value)),
    })
}

/// A string of two text parts as a statement at a place.
pub fn string_statement(
    alloc: Global,
    at: Pos,
    first: TextPart,
    second: TextPart,
) -> Result<TypedStatement, NoMemory> {
    let mut parts = Items::new(alloc);
    parts.push(TypedPart::Text(first))?;
    parts.push(TypedPart::Text(second))?;
    evaluated(alloc, at, TypedKind::Template(parts))
}
