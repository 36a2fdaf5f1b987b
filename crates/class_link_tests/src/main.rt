//! Links the classes that stand on each line of standard input, and prints what is answered: how many linked classes
//! there are, or why there are none. Behind ` ? ` stand questions, whose answers come on the lines below. A line that
//! begins with `#` is printed as it is.
#![tactic(auto)]

mod classes;
mod shown;

use class_link::{LinkErr, link};
use classes::{LineErr, classes_of};
use kt_base::Name;
use shown::told;
use std::alloc::{AllocError, Global};
use std::io;

fn name_text(alloc: Global, name: &Name) -> Result<String, AllocError> {
    let mut text = String::new(alloc);
    for byte in name.as_bytes() {
        text.push(*byte as char)?;
    }
    Ok(text)
}

fn error_text(alloc: Global, error: &LinkErr) -> Result<String, AllocError> {
    match error {
        LinkErr::Missing { name } => format!(in alloc; "missing {}", name_text(alloc, name)?),
        LinkErr::Cycle { name } => format!(in alloc; "cycle {}", name_text(alloc, name)?),
        LinkErr::NoMain => format!(in alloc; "no main"),
        LinkErr::NoMemory => format!(in alloc; "no memory"),
    }
}

/// What is answered for classes and questions.
fn answer(alloc: Global, text: &str, questions: &str) -> Result<String, LineErr> {
    match link(alloc, classes_of(alloc, text)?) {
        Err(error) => Ok(error_text(alloc, &error)?),
        Ok(linked) => {
            let mut answer = format!(in alloc; "linked {}", linked.classes.len())?;
            for question in questions.split(' ') {
                if !question.is_empty() {
                    answer = format!(in alloc; "{answer}\n  {}", told(alloc, &linked, question)?)?;
                }
            }
            Ok(answer)
        }
    }
}

fn answer_line(alloc: Global, line: &str) -> Result<String, LineErr> {
    match line.split_once(" ? ") {
        None => answer(alloc, line, ""),
        Some((text, questions)) => answer(alloc, text, questions),
    }
}

fn main(rt: HostRuntime) -> io::Result<()> {
    for line in rt.lines(rt.alloc()) {
        let line = line?;
        if line.as_str().starts_with('#') {
            println!(rt; "{line}")?;
        } else {
            match answer_line(rt.alloc(), line.as_str()) {
                Ok(text) => println!(rt; "{text}")?,
                Err(LineErr::Unreadable) => println!(rt; "unreadable")?,
                Err(LineErr::NoMemory) => println!(rt; "no memory")?,
            }
        }
    }
    Ok(())
}
