//! A row of the table: what is verified, and what is told of it.

use crate::classes::{Classes, Heading, one_method, push_class, push_program};
use crate::methods::{Written, plain, push_declared};
use crate::parts::{class_number, part, short, word};
use class_linked::{Linked, LinkedMethod};
use class_verify::{VerifyError, verify};
use jvm_class_types::ClassFlags;
use kt_base::{Name, NoMemory};
use sqlite_items::Items;
use std::alloc::Global;

/// The code of a row of methods.
fn written_of(line: &str) -> Written<'_> {
    let sizes = part(line, 1);
    Written {
        max_stack: short(word(sizes, 0)),
        max_locals: short(word(sizes, 1)),
        bytes: part(line, 2),
        frames: part(line, 3),
        handlers: part(line, 4),
    }
}

fn flags_of(word: &str) -> ClassFlags {
    match word {
        "final" => ClassFlags::Final,
        "abstract" => ClassFlags::Abstract,
        "interface" => ClassFlags::Interface,
        _ => ClassFlags::Open,
    }
}

/// The class of a row of classes.
fn heading_of(line: &str) -> Heading<'_> {
    let interface = part(line, 3);
    Heading {
        name: b"Last",
        flags: flags_of(part(line, 1)),
        above: class_number(part(line, 2)),
        interface: if interface.is_empty() {
            None
        } else {
            Some(class_number(interface))
        },
        supers: &[0, 41],
        has_field: part(line, 4) == "field",
    }
}

/// The method of a row of classes, with code where it has bytes.
fn method_of(alloc: Global, line: &str) -> Result<Items<LinkedMethod>, NoMemory> {
    let signature = part(line, 5).as_bytes();
    let bytes = part(line, 6);
    if bytes.is_empty() {
        let mut methods = Items::new(alloc);
        push_declared(alloc, &mut methods, signature)?;
        Ok(methods)
    } else {
        one_method(alloc, signature, &plain(1, 1, bytes))
    }
}

fn is_class_row(line: &str) -> bool {
    part(line, 0) == "class"
}

fn push_row(alloc: Global, classes: &mut Classes, line: &str) -> Result<(), NoMemory> {
    if is_class_row(line) {
        push_program(alloc, classes, b"sV", &plain(0, 0, "b8 00 01 b1"))?;
        push_class(alloc, classes, &heading_of(line), method_of(alloc, line)?)
    } else {
        push_program(alloc, classes, part(line, 0).as_bytes(), &written_of(line))
    }
}

/// The classes of a row.
fn classes_of(alloc: Global, line: &str) -> Result<Linked, NoMemory> {
    let mut classes = Items::new(alloc);
    push_row(alloc, &mut classes, line)?;
    Ok(Linked { classes })
}

/// A refusal: the class, the method and the offset.
fn refusal_text(alloc: Global, class: &Name, method: u32, offset: u32) -> Result<String, NoMemory> {
    match str::from_utf8(class.as_bytes()) {
        Ok(class) => Ok(format!(in alloc; "{class} {method} {offset}")?),
        Err(_) => Err(NoMemory),
    }
}

/// What verification says of a row: `-` where it accepts it.
fn said_of(alloc: Global, line: &str) -> Result<String, NoMemory> {
    match verify(alloc, classes_of(alloc, line)?) {
        Ok(_) => Ok(format!(in alloc; "-")?),
        Err(
            VerifyError::Rejected {
                class,
                method,
                offset,
            },
        ) => refusal_text(alloc, &class, method, offset),
        Err(VerifyError::NoMemory) => Err(NoMemory),
    }
}

/// What the table says of a row: the offset of a method, or the method of a class.
fn wanted_of(alloc: Global, line: &str) -> Result<String, NoMemory> {
    let column = if is_class_row(line) {
        part(line, 7)
    } else {
        part(line, 5)
    };
    if column == "-" {
        Ok(format!(in alloc; "-")?)
    } else if is_class_row(line) {
        Ok(format!(in alloc; "Last {column} 0")?)
    } else if part(line, 0) == "C" {
        Ok(format!(in alloc; "Cont 1 {column}")?)
    } else {
        Ok(format!(in alloc; "MainKt 1 {column}")?)
    }
}

/// What is told of a row: what verification says, the rule, and what the table says where that differs.
pub fn told_of(alloc: Global, line: &str) -> Result<String, NoMemory> {
    let said = said_of(alloc, line)?;
    let wanted = wanted_of(alloc, line)?;
    let rule = if is_class_row(line) {
        part(line, 8)
    } else {
        part(line, 6)
    };
    if said == wanted {
        Ok(format!(in alloc; "{said}: {rule}")?)
    } else {
        Ok(format!(in alloc; "{said}: {rule} (the table says {wanted})")?)
    }
}
