//! Whether bytes are a class file.

ghost use Rattle.read_class.specs.Judging.{IsOfError, Judges, JudgesFile};

use class_answers::Answer;
use class_reader::read;
use class_writer::write;
use jvm_class_formats::ReadErr;
use jvm_class_grammar::laws::one_file;
use std::alloc::Global;

/// What comes of bytes that are read as a class file.
#[derive(Clone, Copy, Debug, PartialEq, Eq)]
pub enum Judgement {
    /// They are a class file, and the class that was read is written in these bytes.
    Same,
    /// The class that was read is written in other bytes. This is never answered: it is a test of the compiler that
    /// built the program.
    Other,
    /// They are the class file of no class: the offset of the refusal.
    Bad(u64),
    /// Memory was refused.
    NoMemory,
}

/// What comes of bytes that aren't read.
fn judgement_of(error: ReadErr) -> Judgement
    ensures { IsOfError error result }
{
    match error {
        ReadErr::BadBytes { offset } => Judgement::Bad(offset),
        ReadErr::NoMemory => Judgement::NoMemory,
    }
}

/// What comes of these bytes, when they are read and what was read is written again.
pub fn judge(alloc: Global, bytes: &[u8]) -> Judgement
    ensures { Judges bytes.now result }
{
    one_file();
    match read(alloc, bytes) {
        Ok(class) => match write(alloc, &class) {
            Ok(written) => {
                if written.as_slice() == bytes {
                    Judgement::Same
                } else {
                    Judgement::Other
                }
            }
            Err(_) => Judgement::NoMemory,
        },
        Err(error) => judgement_of(error),
    }
}

fn altered(alloc: Global, name: &str) -> Answer {
    match String::from_str(alloc, name) {
        Ok(file) => Answer::Altered { file },
        Err(_) => Answer::NoMemory,
    }
}

/// What is answered of the file of this name, which holds these bytes.
pub fn answer_of_bytes(alloc: Global, name: &str, bytes: &[u8]) -> Answer
    ensures { JudgesFile name.now bytes.now result }
{
    match judge(alloc, bytes) {
        Judgement::Same => Answer::Fine,
        Judgement::Other => altered(alloc, name),
        Judgement::Bad(offset) => Answer::bad_bytes(alloc, name, offset),
        Judgement::NoMemory => Answer::NoMemory,
    }
}
