//! Trees of functions and constants, written in letters.

ghost use Rattle.std.specs.Str.{IsAscii};

use kt_base::{Name, NoMemory, Pos};
use kt_tree::{
    Block, ConstantDeclaration, ConstantValue, Declaration, FileTree, FunctionBody,
    FunctionDeclaration, FunctionModifiers, Literal, Number, Parameter, TextPart, TypeParameter,
    TypeReference,
};
use sqlite_items::{Boxed, Items};
use std::alloc::Global;

/// The name that a letter stands for.
fn name_of(alloc: Global, letter: u8) -> Result<Name, NoMemory> {
    match letter {
        b'm' => Name::of(alloc, b"main"),
        b'p' => Name::of(alloc, b"println"),
        b'l' => Name::of(alloc, b"launch"),
        b's' => Name::of(alloc, b"suspendCoroutine"),
        b'q' => Name::of(alloc, b"arrayOfNulls"),
        b'y' => Name::of(alloc, b"IntArray"),
        b'i' => Name::of(alloc, b"Int"),
        b'n' => Name::of(alloc, b"Nothing"),
        b'c' => Name::of(alloc, b"Continuation"),
        b'e' => Name::of(alloc, b"Throwable"),
        b'x' => Name::of(alloc, b"ArithmeticException"),
        b'k' => Name::of(alloc, b"MainKt"),
        b'g' => Name::of(alloc, b"g"),
        b'h' => Name::of(alloc, b"h"),
        b'a' => Name::of(alloc, b"a"),
        b'b' => Name::of(alloc, b"b"),
        b't' => Name::of(alloc, b"toString"),
        b'z' => Name::of(alloc, b"mainKt"),
        b'1' => Name::of(alloc, b"T"),
        b'2' => Name::of(alloc, b"U"),
        b'3' => Name::of(alloc, b"V"),
        _ => Name::of(alloc, b"f"),
    }
}

fn plain(alloc: Global, name: &[u8]) -> Result<TypeReference, NoMemory>
    requires { IsAscii name.now }
{
    Ok(TypeReference::Named(Name::of(alloc, name)?, Items::new(alloc)))
}

/// A name with one type argument.
fn applied(alloc: Global, name: &[u8], argument: TypeReference) -> Result<TypeReference, NoMemory>
    requires { IsAscii name.now }
{
    let mut arguments = Items::new(alloc);
    arguments.push(argument)?;
    Ok(TypeReference::Named(Name::of(alloc, name)?, arguments))
}

fn nullable(alloc: Global, of: TypeReference) -> Result<TypeReference, NoMemory> {
    Ok(TypeReference::Nullable(Boxed::new(alloc, of)?))
}

/// A function type from so many `Int` to `Int`.
fn function_type(alloc: Global, count: u32) -> Result<TypeReference, NoMemory> {
    let mut taken = Items::new(alloc);
    for _turn in 0..count {
        taken.push(plain(alloc, b"Int")?)?;
    }
    let given = Boxed::new(alloc, plain(alloc, b"Int")?)?;
    Ok(TypeReference::Function(false, taken, given))
}

/// A type without arguments.
fn simple_type(alloc: Global, letter: u8) -> Result<TypeReference, NoMemory> {
    match letter {
        b'i' => plain(alloc, b"Int"),
        b'l' => plain(alloc, b"Long"),
        b'b' => plain(alloc, b"Boolean"),
        b'c' => plain(alloc, b"Char"),
        b's' => plain(alloc, b"String"),
        b'u' => plain(alloc, b"Unit"),
        b'n' => plain(alloc, b"Nothing"),
        b'a' => plain(alloc, b"Any"),
        b'y' => plain(alloc, b"IntArray"),
        b'e' => plain(alloc, b"IllegalStateException"),
        b'z' => plain(alloc, b"Array"),
        b'd' => plain(alloc, b"Continuation"),
        b'j' => plain(alloc, b"int"),
        b'k' => plain(alloc, b"MainKt"),
        b'1' => plain(alloc, b"T"),
        b'2' => plain(alloc, b"U"),
        b'3' => plain(alloc, b"V"),
        _ => plain(alloc, b"Foo"),
    }
}

/// The type that a letter stands for.
fn type_of(alloc: Global, letter: u8) -> Result<TypeReference, NoMemory> {
    match letter {
        b'I' => nullable(alloc, plain(alloc, b"Int")?),
        b'U' => nullable(alloc, plain(alloc, b"Unit")?),
        b'A' => applied(alloc, b"Array", plain(alloc, b"Int")?),
        b'B' => applied(alloc, b"Array", nullable(alloc, plain(alloc, b"Int")?)?),
        b'C' => applied(alloc, b"Continuation", plain(alloc, b"Int")?),
        b'D' => applied(alloc, b"Continuation", plain(alloc, b"Foo")?),
        b'E' => applied(alloc, b"Throwable", plain(alloc, b"Int")?),
        b'Q' => applied(alloc, b"Int", plain(alloc, b"Int")?),
        b'N' => applied(alloc, b"Nothing", plain(alloc, b"Int")?),
        b'K' => applied(alloc, b"Continuation", plain(alloc, b"T")?),
        b'O' => applied(alloc, b"Array", plain(alloc, b"T")?),
        b'S' => applied(alloc, b"Array", nullable(alloc, plain(alloc, b"T")?)?),
        b'T' => nullable(alloc, plain(alloc, b"T")?),
        b'V' => nullable(alloc, plain(alloc, b"U")?),
        b'X' => applied(alloc, b"T", plain(alloc, b"Int")?),
        b'F' => function_type(alloc, 0),
        b'G' => function_type(alloc, 6),
        b'H' => function_type(alloc, 7),
        b'P' => Ok(TypeReference::Parenthesized(Boxed::new(alloc, plain(alloc, b"Unit")?)?)),
        _ => simple_type(alloc, letter),
    }
}

/// The capital letters in front.
fn modifiers_of(letters: &[u8]) -> FunctionModifiers {
    let mut modifiers = FunctionModifiers {
        is_override: false,
        is_open: false,
        is_abstract: false,
        is_suspend: false,
    };
    for letter in letters {
        match *letter {
            b'R' => modifiers.is_override = true,
            b'O' => modifiers.is_open = true,
            b'A' => modifiers.is_abstract = true,
            b'S' => modifiers.is_suspend = true,
            _ => return modifiers,
        }
    }
    modifiers
}

/// What stands behind the modifiers.
fn behind_modifiers(letters: &[u8]) -> &[u8] {
    for index in 0..letters.len() {
        if !letters[index].is_ascii_uppercase() {
            return &letters[index..];
        }
    }
    &[]
}

/// Where the sign stands, and else the length.
fn place_of(letters: &[u8], sign: u8) -> usize {
    for index in 0..letters.len() {
        if letters[index] == sign {
            return index;
        }
    }
    letters.len()
}

/// The type parameters, two letters each, the second for the bound.
fn type_parameters_of(alloc: Global, letters: &[u8]) -> Result<Items<TypeParameter>, NoMemory> {
    let mut parameters = Items::new(alloc);
    for pair in 0..letters.len() / 2 {
        let bound = result_of(alloc, letter_at(letters, 2 * pair + 1))?;
        let name = name_of(alloc, letter_at(letters, 2 * pair))?;
        parameters.push(TypeParameter { name, bound })?;
    }
    Ok(parameters)
}

/// What stands behind the type parameters.
fn behind_angles(letters: &[u8]) -> &[u8] {
    if letter_at(letters, 0) == b'<' {
        let end = place_of(letters, b'>');
        letters.get(end..).unwrap_or(&[]).get(1..).unwrap_or(&[])
    } else {
        letters
    }
}

/// What stands between the angles.
fn between_angles(letters: &[u8]) -> &[u8] {
    if letter_at(letters, 0) == b'<' {
        let end = place_of(letters, b'>');
        letters.get(..end).unwrap_or(&[]).get(1..).unwrap_or(&[])
    } else {
        &[]
    }
}

/// The letter at an index, and `.` behind the last.
fn letter_at(letters: &[u8], index: usize) -> u8 {
    letters.get(index).copied().unwrap_or(b'.')
}

/// The parameters, two letters each.
fn parameters_of(alloc: Global, letters: &[u8]) -> Result<Items<Parameter>, NoMemory> {
    let mut parameters = Items::new(alloc);
    for pair in 0..letters.len() / 2 {
        let name = letter_at(letters, 2 * pair);
        let annotation = letter_at(letters, 2 * pair + 1);
        parameters.push(parameter(alloc, name, annotation)?)?;
    }
    Ok(parameters)
}

fn result_of(alloc: Global, letter: u8) -> Result<Option<TypeReference>, NoMemory> {
    if letter == b'.' {
        Ok(None)
    } else {
        Ok(Some(type_of(alloc, letter)?))
    }
}

fn parameter(alloc: Global, name: u8, annotation: u8) -> Result<Parameter, NoMemory> {
    let annotation = type_of(alloc, annotation)?;
    Ok(Parameter {
        name: name_of(alloc, name)?,
        annotation,
    })
}

fn body(line: u32, alloc: Global) -> FunctionBody {
    FunctionBody::Braces(Block {
        statements: Items::new(alloc),
        end: Pos { line, column: 9 },
    })
}

/// The function, on its line, in letters: capital letters for its modifiers (`R` override, `O` open, `A` abstract, `S`
/// suspend), two letters for each type parameter's name and bound between angles, a letter for its name, two for each
/// parameter's name and type, and one for its result; `.` where no bound or result is written.
fn function(alloc: Global, line: u32, letters: &[u8]) -> Result<FunctionDeclaration, NoMemory> {
    let behind = behind_modifiers(letters);
    let type_parameters = type_parameters_of(alloc, between_angles(behind))?;
    let left = behind_angles(behind);
    let name = name_of(alloc, letter_at(left, 0))?;
    let behind_name = left.get(1..).unwrap_or(&[]);
    let parameters = parameters_of(alloc, behind_name)?;
    let last = letter_at(behind_name, behind_name.len() / 2 * 2);
    let result = result_of(alloc, last)?;
    Ok(FunctionDeclaration {
        at: Pos { line, column: 1 },
        modifiers: modifiers_of(letters),
        type_parameters,
        name,
        parameters,
        result,
        body: Some(body(line, alloc)),
    })
}

fn number(value: Option<u64>, long: bool) -> Literal {
    Literal::Number(Number { value, long })
}

/// The literal that a letter stands for.
fn literal_of(letter: u8) -> Literal {
    match letter {
        b'0' => number(Some(0), false),
        b'7' => number(Some(2_147_483_647), false),
        b'8' => number(Some(2_147_483_648), false),
        b'9' => number(Some(9_223_372_036_854_775_807), false),
        b'l' => number(Some(1), true),
        b'x' => number(None, false),
        b'c' => Literal::Character(65),
        b't' => Literal::True,
        b'f' => Literal::False,
        b'n' => Literal::Null,
        _ => number(Some(1), false),
    }
}

/// The value that letters stand for: `s` a text, and else a literal, with a `-` before it where so.
fn value_of(alloc: Global, letters: &[u8]) -> Result<ConstantValue, NoMemory> {
    match letter_at(letters, 0) {
        b's' => {
            let mut parts = Items::new(alloc);
            parts.push(TextPart::Dollar)?;
            parts.push(TextPart::Escape(10))?;
            Ok(ConstantValue::Text(parts))
        }
        b'-' => Ok(ConstantValue::Literal(true, literal_of(letter_at(letters, 1)))),
        letter => Ok(ConstantValue::Literal(false, literal_of(letter))),
    }
}

/// The constant, on its line, in letters behind `=`: one for its name, one for its type, `.` where none is written, and
/// its value.
fn constant(alloc: Global, line: u32, letters: &[u8]) -> Result<ConstantDeclaration, NoMemory> {
    let name = name_of(alloc, letter_at(letters, 1))?;
    let annotation = result_of(alloc, letter_at(letters, 2))?;
    let value = value_of(alloc, letters.get(3..).unwrap_or(&[]))?;
    Ok(ConstantDeclaration {
        at: Pos { line, column: 1 },
        name,
        annotation,
        value,
    })
}

fn declaration(alloc: Global, line: u32, letters: &[u8]) -> Result<Declaration, NoMemory> {
    if letter_at(letters, 0) == b'=' {
        Ok(Declaration::Constant(constant(alloc, line, letters)?))
    } else {
        Ok(Declaration::Function(function(alloc, line, letters)?))
    }
}

/// The declarations, each on a line of its own.
pub fn file(alloc: Global, lines: &[&str]) -> Result<FileTree, NoMemory> {
    let mut declarations = Items::new(alloc);
    let mut line: u32 = 1;
    for letters in lines {
        declarations.push(declaration(alloc, line, letters.as_bytes())?)?;
        line = line.wrapping_add(1);
    }
    Ok(FileTree { declarations })
}
