//! What linking made of a class, as lines ask for it.
//!
//! | question | what is told |
//! |---|---|
//! | `c:CLASS:INDEX` | the constant at an index: a class by its number, a member by the class that is named, the one that declares it and its place |
//! | `t:CLASS` | the table: the class and the place of each method |
//! | `f:CLASS` | for each interface the methods that stand for its own |
//! | `s:CLASS` | how each method of the class is found |
//! | `u:CLASS` | what stands above, and the classes that declare the fields of its objects |

use crate::classes::word_of;
use class_linked::{Constant, Linked, LinkedClass, LinkedMethod, Selector};
use sqlite_items::at;
use std::alloc::{AllocError, Global};

fn number_of(digits: &[u8]) -> usize {
    let mut number: usize = 0;
    for digit in digits {
        let value = digit.wrapping_sub(b'0');
        number = number.saturating_mul(10).saturating_add(value as usize);
    }
    number
}

fn constant_text(alloc: Global, constant: &Constant) -> Result<String, AllocError> {
    match constant {
        Constant::Nothing => format!(in alloc; "nothing"),
        Constant::Int(n) => format!(in alloc; "int {n}"),
        Constant::Long(n) => format!(in alloc; "long {n}"),
        Constant::Text(_) => format!(in alloc; "text"),
        Constant::Class(class) => format!(in alloc; "class {class}"),
        Constant::Field(field) => {
            format!(in alloc; "field {} {} {}", field.named, field.owner, field.slot)
        }
        Constant::Method(method) => {
            format!(in alloc; "method {} {} {}", method.named, method.owner, method.place)
        }
        Constant::InterfaceMethod(method) => {
            format!(in alloc;
                "interface method {} {} {}",
                method.named, method.owner, method.place
            )
        }
    }
}

fn table_text(alloc: Global, class: &LinkedClass) -> Result<String, AllocError> {
    let mut text = format!(in alloc; "table")?;
    for slot in class.table.as_slice() {
        text = format!(in alloc; "{text} {}.{}", slot.class, slot.place)?;
    }
    Ok(text)
}

fn faces_text(alloc: Global, class: &LinkedClass) -> Result<String, AllocError> {
    let mut text = format!(in alloc; "faces")?;
    for face in class.faces.as_slice() {
        text = format!(in alloc; "{text} {}:", face.interface)?;
        for method in face.methods.as_slice() {
            text = format!(in alloc; "{text} {}.{}", method.class, method.place)?;
        }
    }
    Ok(text)
}

fn selector_text(alloc: Global, method: &LinkedMethod) -> Result<String, AllocError> {
    match method.selector {
        None => format!(in alloc; "none"),
        Some(Selector::Slot(slot)) => format!(in alloc; "slot {slot}"),
        Some(Selector::Face(interface, place)) => format!(in alloc; "face {interface}.{place}"),
    }
}

fn selectors_text(alloc: Global, class: &LinkedClass) -> Result<String, AllocError> {
    let mut text = format!(in alloc; "methods")?;
    for method in class.methods.as_slice() {
        let selector = selector_text(alloc, method)?;
        text = format!(in alloc; "{text}, {selector}")?;
    }
    Ok(text)
}

fn supers_text(alloc: Global, class: &LinkedClass) -> Result<String, AllocError> {
    let mut text = format!(in alloc; "above {:?}, under", class.above)?;
    for above in class.supers.as_slice() {
        text = format!(in alloc; "{text} {above}")?;
    }
    text = format!(in alloc; "{text}, fields")?;
    for field in class.fields.as_slice() {
        text = format!(in alloc; "{text} {}", field.owner)?;
    }
    Ok(text)
}

fn constant_at(alloc: Global, class: &LinkedClass, index: &[u8]) -> Result<String, AllocError> {
    match at(class.constants.as_slice(), number_of(index)) {
        None => format!(in alloc; "no constant"),
        Some(constant) => constant_text(alloc, constant),
    }
}

/// What is told for a question.
pub fn told(alloc: Global, linked: &Linked, question: &str) -> Result<String, AllocError> {
    let word = word_of(question.as_bytes());
    match at(linked.classes.as_slice(), number_of(word.first)) {
        None => format!(in alloc; "no class"),
        Some(class) => match word.letter {
            b"c" => constant_at(alloc, class, word.second),
            b"t" => table_text(alloc, class),
            b"f" => faces_text(alloc, class),
            b"s" => selectors_text(alloc, class),
            b"u" => supers_text(alloc, class),
            _ => format!(in alloc; "no question"),
        },
    }
}
