//! Units of the tables.

use crate::bodies::{any_type, name};
use kt_base::{NoMemory, Pos};
use kt_tree::TextPart;
use kt_typed::{
    ClassParameter, ConstantLiteral, DeclarationNumber, DeclaredClass, DeclaredConstant,
    DeclaredEntry, DeclaredFunction, DeclaredParameter, DeclaredProperty, Headers, MemberNumber,
    TypedClass, TypedFun, TypedUnit,
};
use kt_types_tree::{ClassKind, Hierarchy};
use sqlite_items::Items;
use std::alloc::Global;

/// A unit without declarations.
pub fn empty(alloc: Global) -> TypedUnit {
    TypedUnit {
        headers: Headers {
            hierarchy: Hierarchy {
                classes: Items::new(alloc),
                bounds: Items::new(alloc),
            },
            classes: Items::new(alloc),
            functions: Items::new(alloc),
            constants: Items::new(alloc),
            order: Items::new(alloc),
        },
        functions: Items::new(alloc),
        classes: Items::new(alloc),
    }
}

fn parameters(
    alloc: Global,
    count: u32,
    length: usize,
) -> Result<Items<DeclaredParameter>, NoMemory> {
    let mut parameters = Items::new(alloc);
    for _ in 0..count {
        parameters.push(DeclaredParameter {
            name: name(alloc, length)?,
            annotation: any_type(alloc),
        })?;
    }
    Ok(parameters)
}

/// The header of a function on a line: how long its name is, how many parameters it has and how long their names are.
pub fn function_header(
    alloc: Global,
    line: u32,
    length: usize,
    count: u32,
    parameter_length: usize,
) -> Result<DeclaredFunction, NoMemory> {
    let parameters = parameters(alloc, count, parameter_length)?;
    Ok(DeclaredFunction {
        at: Pos { line, column: 1 },
        name: name(alloc, length)?,
        type_parameters: Items::new(alloc),
        parameters,
        result: any_type(alloc),
        is_suspend: false,
        is_open: false,
        has_body: true,
        overrides: None,
    })
}

/// One function more, by its number.
pub fn add_function(
    unit: &mut TypedUnit,
    number: u32,
    header: DeclaredFunction,
    body: TypedFun,
) -> Result<(), NoMemory> {
    unit.headers.functions.push(header)?;
    unit.functions.push(body)?;
    unit.headers
        .order
        .push(DeclarationNumber::Function(number))?;
    Ok(())
}

/// A constant on line 1, a text of two parts.
pub fn add_constant(
    alloc: Global,
    unit: &mut TypedUnit,
    first: TextPart,
    second: TextPart,
) -> Result<(), NoMemory> {
    let mut parts = Items::new(alloc);
    parts.push(first)?;
    parts.push(second)?;
    unit.headers.constants.push(DeclaredConstant {
        at: Pos { line: 1, column: 1 },
        name: name(alloc, 1)?,
        annotation: any_type(alloc),
        value: ConstantLiteral::Text(parts),
    })?;
    unit.headers.order.push(DeclarationNumber::Constant(0))?;
    Ok(())
}

fn entries(alloc: Global, count: u32, length: usize) -> Result<Items<DeclaredEntry>, NoMemory> {
    let mut entries = Items::new(alloc);
    for number in 0..count {
        entries.push(DeclaredEntry {
            at: Pos {
                line: number.saturating_add(2),
                column: 5,
            },
            name: name(alloc, length)?,
        })?;
    }
    Ok(entries)
}

/// An enum of so many entries, on line 1, each entry on a line of its own.
pub fn add_enum(
    alloc: Global,
    unit: &mut TypedUnit,
    count: u32,
    length: usize,
) -> Result<(), NoMemory> {
    let entries = entries(alloc, count, length)?;
    unit.headers.classes.push(DeclaredClass {
        at: Pos { line: 1, column: 1 },
        name: name(alloc, 1)?,
        kind: ClassKind::Enum,
        is_open: false,
        is_abstract: false,
        type_parameters: Items::new(alloc),
        parameters: Items::new(alloc),
        properties: Items::new(alloc),
        functions: Items::new(alloc),
        entries,
        members: Items::new(alloc),
        superclass: None,
    })?;
    unit.classes.push(TypedClass {
        constructor: None,
        functions: Items::new(alloc),
    })?;
    unit.headers.order.push(DeclarationNumber::Class(0))?;
    Ok(())
}

fn class_parameters(alloc: Global, count: u32) -> Result<Items<ClassParameter>, NoMemory> {
    let mut parameters = Items::new(alloc);
    for number in 0..count {
        parameters.push(ClassParameter {
            name: name(alloc, 1)?,
            annotation: any_type(alloc),
            property: Some(number),
        })?;
    }
    Ok(parameters)
}

/// The class on line 1, with so many parameters that declare properties, and on lines 2 and 3 a property of the body,
/// with a name of so many letters, and a function.
fn class_header(alloc: Global, parameters: u32, length: usize) -> Result<DeclaredClass, NoMemory> {
    let mut properties = Items::new(alloc);
    properties.push(DeclaredProperty {
        at: Pos { line: 2, column: 5 },
        name: name(alloc, length)?,
        is_variable: false,
        annotation: any_type(alloc),
    })?;
    let mut functions = Items::new(alloc);
    functions.push(function_header(alloc, 3, 1, 0, 0)?)?;
    let mut members = Items::new(alloc);
    members.push(MemberNumber::Property(0))?;
    members.push(MemberNumber::Function(0))?;
    let parameters = class_parameters(alloc, parameters)?;
    Ok(DeclaredClass {
        at: Pos { line: 1, column: 1 },
        name: name(alloc, 1)?,
        kind: ClassKind::Class,
        is_open: false,
        is_abstract: false,
        type_parameters: Items::new(alloc),
        parameters,
        properties,
        functions,
        entries: Items::new(alloc),
        members,
        superclass: None,
    })
}

/// A class with a property and a function in its body.
pub fn add_class(
    alloc: Global,
    unit: &mut TypedUnit,
    parameters: u32,
    length: usize,
    constructor: TypedFun,
    function: TypedFun,
) -> Result<(), NoMemory> {
    let mut functions = Items::new(alloc);
    functions.push(Some(function))?;
    unit.classes.push(TypedClass {
        constructor: Some(constructor),
        functions,
    })?;
    unit.headers
        .classes
        .push(class_header(alloc, parameters, length)?)?;
    unit.headers.order.push(DeclarationNumber::Class(0))?;
    Ok(())
}
