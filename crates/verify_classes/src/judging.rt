//! Whether classes are closed, and verified.

ghost use Rattle.verify_classes.specs.Judging.{AnswersLink, AnswersVerify, Judges};
ghost use Rattle.class_link.specs.declared.errors.LinkErr.{LinkErr};

use class_answers::Answer;
use class_link::{LinkErr, link};
use class_linked::Linked;
use class_verify::{VerifyError, verify};
use jvm_class_types::ClassFile;
use std::alloc::Global;

/// What is answered where classes aren't linked.
fn link_answer(error: LinkErr) -> Answer
    ensures { AnswersLink error result }
{
    match error {
        LinkErr::Missing { name } => Answer::Missing { class: name },
        LinkErr::Cycle { name } => Answer::Cyclic { class: name },
        LinkErr::NoMain => Answer::NoMain,
        LinkErr::NoMemory => Answer::NoMemory,
    }
}

/// What is answered of classes that are linked.
fn verify_answer(alloc: Global, linked: Linked) -> Answer
    ensures { AnswersVerify linked result }
{
    match verify(alloc, linked) {
        Ok(_) => Answer::Fine,
        Err(
            VerifyError::Rejected {
                class,
                method,
                offset,
            },
        ) => Answer::Rejected {
            class,
            method,
            offset,
        },
        Err(VerifyError::NoMemory) => Answer::NoMemory,
    }
}

/// What is answered of classes: they are linked, and then verified.
pub fn judge(alloc: Global, classes: Vec<ClassFile>) -> Answer
    ensures { Judges classes.items result }
{
    match link(alloc, classes) {
        Ok(linked) => verify_answer(alloc, linked),
        Err(error) => link_answer(error),
    }
}
