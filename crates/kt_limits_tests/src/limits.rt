//! Units, and what they are answered.

use crate::bodies::{
    Lambda, body, declaration, lambda_statement, locals, make_lambda, plain_body, prints,
    string_statement, text, wide_statements,
};
use crate::units::{add_class, add_constant, add_enum, add_function, empty, function_header};
use kt_base::{FrontErr, Kind, NoMemory, Pos};
use kt_limits::check_size;
use kt_tree::TextPart;
use kt_typed::{TypedFun, TypedStatement, TypedUnit};
use sqlite_items::Items;
use std::alloc::Global;
use std::test::Fail;

/// What a unit is answered.
#[derive(Clone, Copy, Debug, PartialEq, Eq)]
enum Answer {
    Within,
    /// Refused for its size, at a line and a column.
    At(u32, u32),
    /// Another kind of answer, which no row expects.
    Other,
}

fn told(unit: &TypedUnit) -> Answer {
    match check_size(unit) {
        Ok(()) => Answer::Within,
        Err(FrontErr::Refused(refusal)) => {
            if refusal.kind == Kind::Size {
                Answer::At(refusal.pos.line, refusal.pos.column)
            } else {
                Answer::Other
            }
        }
        Err(FrontErr::NoMemory) => Answer::Other,
    }
}

/// A function of `println()`, so often, on a line.
fn add_prints(alloc: Global, unit: &mut TypedUnit, line: u32, count: u32) -> Result<(), NoMemory> {
    let header = function_header(alloc, line, 1, 0, 0)?;
    let statements = prints(alloc, line, count)?;
    let body = plain_body(alloc, statements);
    add_function(unit, line.saturating_sub(1), header, body)
}

/// Functions of `println()`, one a line.
fn of_prints(alloc: Global, counts: &[u32]) -> Result<Answer, NoMemory> {
    let mut unit = empty(alloc);
    let mut line = 1;
    for count in counts {
        add_prints(alloc, &mut unit, line, *count)?;
        line = u32::saturating_add(line, 1);
    }
    Ok(told(&unit))
}

type PrintsRow = (&'static [u32], Answer);

/// A body of 661 nodes weighs 31,984, and one of 662 nodes 32,032. A function is one node of the file's own class.
fn prints_rows() -> &'static [PrintsRow] {
    &[
        (&[], Answer::Within),
        (&[0], Answer::Within),
        (&[661], Answer::Within),
        (&[662], Answer::At(1, 662)),
        (&[664], Answer::At(1, 662)),
        (&[1, 663, 663], Answer::At(2, 662)),
        (&[660, 660, 660, 660, 660, 660, 33], Answer::Within),
        (&[660, 660, 660, 660, 660, 660, 34], Answer::At(7, 34)),
        (&[660, 660, 660, 660, 660, 660, 40, 1], Answer::At(7, 33)),
        (&[660, 660, 660, 660, 660, 660, 30, 3], Answer::At(8, 3)),
    ]
}

/// A function on line 1 and one on line 2: the length of its name, how many parameters, the length of their names.
fn of_header(alloc: Global, length: usize, count: u32, each: usize) -> Result<Answer, NoMemory> {
    let mut unit = empty(alloc);
    add_prints(alloc, &mut unit, 1, 1)?;
    let header = function_header(alloc, 2, length, count, each)?;
    let body = plain_body(alloc, Items::new(alloc));
    add_function(&mut unit, 1, header, body)?;
    Ok(told(&unit))
}

type HeaderRow = (usize, u32, usize, Answer);

fn header_rows() -> &'static [HeaderRow] {
    &[
        (1, 100, 1, Answer::Within),
        (1, 101, 1, Answer::At(2, 1)),
        (255, 0, 0, Answer::Within),
        (256, 0, 0, Answer::At(2, 1)),
        (1, 1, 255, Answer::Within),
        (1, 1, 256, Answer::At(2, 1)),
    ]
}

/// `main` with a lambda of 330 nodes `println(a)` and `println(b)` and so many `println()`, at 4:5.
fn of_wide_lambda(alloc: Global, more: u32) -> Result<Answer, NoMemory> {
    let shape = Lambda {
        captures: 2,
        parameters: 0,
        name_length: 1,
    };
    let wide = make_lambda(alloc, shape, wide_statements(alloc, more)?)?;
    of_lambda(alloc, wide)
}

fn of_lambda(alloc: Global, wide: TypedFun) -> Result<Answer, NoMemory> {
    let literal = lambda_statement(alloc, Pos { line: 4, column: 5 }, wide)?;
    let mut statements = prints(alloc, 2, 2)?;
    statements.push(literal)?;
    of_statements(alloc, statements)
}

/// `main` of these statements.
fn of_statements(alloc: Global, statements: Items<TypedStatement>) -> Result<Answer, NoMemory> {
    let mut unit = empty(alloc);
    let body = plain_body(alloc, statements);
    add_function(&mut unit, 0, function_header(alloc, 1, 4, 0, 0)?, body)?;
    Ok(told(&unit))
}

type WideRow = (u32, Answer);

/// With 661 nodes and two captures a lambda weighs 32,000.
fn wide_rows() -> &'static [WideRow] {
    &[
        (0, Answer::Within),
        (1, Answer::Within),
        (2, Answer::At(4, 5)),
    ]
}

/// `main` with an empty lambda of so many captures and parameters, with names of so many letters.
fn of_shape(alloc: Global, shape: Lambda) -> Result<Answer, NoMemory> {
    let empty = make_lambda(alloc, shape, Items::new(alloc))?;
    of_lambda(alloc, empty)
}

type ShapeRow = (u32, u32, usize, Answer);

fn shape_rows() -> &'static [ShapeRow] {
    &[
        (100, 0, 1, Answer::Within),
        (101, 0, 1, Answer::At(4, 5)),
        (0, 100, 1, Answer::Within),
        (0, 101, 1, Answer::At(4, 5)),
        (0, 1, 255, Answer::Within),
        (0, 1, 256, Answer::At(4, 5)),
    ]
}

/// `main` with a local at 2:5, whose name has so many letters.
fn of_local(alloc: Global, length: usize) -> Result<Answer, NoMemory> {
    let mut unit = empty(alloc);
    let header = function_header(alloc, 1, 4, 0, 0)?;
    let mut statements = prints(alloc, 1, 1)?;
    statements.push(declaration(alloc, Pos { line: 2, column: 5 }, 0)?)?;
    let local = locals(alloc, 1, length)?;
    let whole = body(alloc, 0, local, Items::new(alloc), statements);
    add_function(&mut unit, 0, header, whole)?;
    Ok(told(&unit))
}

type LocalRow = (usize, Answer);

fn local_rows() -> &'static [LocalRow] {
    &[(255, Answer::Within), (256, Answer::At(2, 5))]
}

/// `main` with a string of one unit so often, and then of letters so many.
fn of_string(alloc: Global, unit: u16, length: usize, letters: usize) -> Result<Answer, NoMemory> {
    let first = TextPart::Run(text(alloc, unit, length)?);
    let second = TextPart::Run(text(alloc, 97, letters)?);
    let mut statements = prints(alloc, 1, 1)?;
    statements.push(string_statement(alloc, Pos { line: 2, column: 5 }, first, second)?)?;
    of_statements(alloc, statements)
}

type StringRow = (u16, usize, usize, Answer);

/// A unit is one byte, but 0 and those from 0x80 on are two, and those from 0x800 on three.
fn string_rows() -> &'static [StringRow] {
    &[
        (97, 65_535, 1, Answer::Within),
        (97, 65_536, 1, Answer::At(2, 5)),
        (97, 1, 65_536, Answer::At(2, 5)),
        (97, 40_000, 40_000, Answer::Within),
        (0, 32_767, 1, Answer::Within),
        (0, 32_768, 1, Answer::At(2, 5)),
        (0x7F, 65_535, 1, Answer::Within),
        (0x80, 32_768, 1, Answer::At(2, 5)),
        (0x7FF, 32_767, 1, Answer::Within),
        (0x800, 21_845, 1, Answer::Within),
        (0xD800, 21_846, 1, Answer::At(2, 5)),
    ]
}

/// A constant whose text has two parts.
fn of_constant(alloc: Global, first: usize, second: usize) -> Result<Answer, NoMemory> {
    let mut unit = empty(alloc);
    let begin = TextPart::Run(text(alloc, 97, first)?);
    let end = TextPart::Run(text(alloc, 97, second)?);
    add_constant(alloc, &mut unit, begin, end)?;
    Ok(told(&unit))
}

type ConstantRow = (usize, usize, Answer);

/// The whole text of a constant is one part.
fn constant_rows() -> &'static [ConstantRow] {
    &[
        (40_000, 25_535, Answer::Within),
        (40_000, 25_536, Answer::At(1, 1)),
    ]
}

/// An enum of so many entries, with names of so many letters.
fn of_enum(alloc: Global, count: u32, length: usize) -> Result<Answer, NoMemory> {
    let mut unit = empty(alloc);
    add_enum(alloc, &mut unit, count, length)?;
    Ok(told(&unit))
}

type EnumRow = (u32, usize, Answer);

fn enum_rows() -> &'static [EnumRow] {
    &[
        (4_000, 1, Answer::Within),
        (4_001, 1, Answer::At(4_002, 5)),
        (2, 255, Answer::Within),
        (2, 256, Answer::At(2, 5)),
    ]
}

/// A class: parameters of its constructor, letters of its property's name, statements of its function.
fn of_class(
    alloc: Global,
    parameters: u32,
    length: usize,
    statements: u32,
) -> Result<Answer, NoMemory> {
    let mut unit = empty(alloc);
    let constructor = plain_body(alloc, prints(alloc, 2, 1)?);
    let function = plain_body(alloc, prints(alloc, 3, statements)?);
    add_class(alloc, &mut unit, parameters, length, constructor, function)?;
    Ok(told(&unit))
}

type ClassRow = (u32, usize, u32, Answer);

fn class_rows() -> &'static [ClassRow] {
    &[
        (100, 255, 661, Answer::Within),
        (101, 1, 1, Answer::At(1, 1)),
        (1, 256, 663, Answer::At(2, 5)),
        (1, 1, 663, Answer::At(3, 662)),
    ]
}

#[test]
fn functions_are_as_told(rt: HostRuntime) -> Result<(), Fail> {
    for row in prints_rows() {
        let (counts, expected) = *row;
        assert_eq!(rt; of_prints(rt.alloc(), counts)?, expected);
    }
    for row in header_rows() {
        let (length, count, each, expected) = *row;
        assert_eq!(rt; of_header(rt.alloc(), length, count, each)?, expected);
    }
    Ok(())
}

#[test]
fn lambdas_are_as_told(rt: HostRuntime) -> Result<(), Fail> {
    for row in wide_rows() {
        let (more, expected) = *row;
        assert_eq!(rt; of_wide_lambda(rt.alloc(), more)?, expected);
    }
    for row in shape_rows() {
        let (captures, parameters, name_length, expected) = *row;
        let shape = Lambda {
            captures,
            parameters,
            name_length,
        };
        assert_eq!(rt; of_shape(rt.alloc(), shape)?, expected);
    }
    Ok(())
}

#[test]
fn locals_and_texts_are_as_told(rt: HostRuntime) -> Result<(), Fail> {
    for row in local_rows() {
        let (length, expected) = *row;
        assert_eq!(rt; of_local(rt.alloc(), length)?, expected);
    }
    for row in string_rows() {
        let (unit, length, letters, expected) = *row;
        assert_eq!(rt; of_string(rt.alloc(), unit, length, letters)?, expected);
    }
    for row in constant_rows() {
        let (first, second, expected) = *row;
        assert_eq!(rt; of_constant(rt.alloc(), first, second)?, expected);
    }
    Ok(())
}

#[test]
fn classes_are_as_told(rt: HostRuntime) -> Result<(), Fail> {
    for row in enum_rows() {
        let (count, length, expected) = *row;
        assert_eq!(rt; of_enum(rt.alloc(), count, length)?, expected);
    }
    for row in class_rows() {
        let (parameters, length, statements, expected) = *row;
        assert_eq!(rt;
            of_class(rt.alloc(), parameters, length, statements)?,
            expected
        );
    }
    Ok(())
}
