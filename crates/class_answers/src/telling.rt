//! The line of an answer.

ghost use Rattle.class_answers.specs.Answers.{err_line, out_line};
ghost use Rattle.class_answers.specs.Telling.{stream, Tells};
ghost use Rattle.kt_base.specs.Report.{line};
ghost use Rattle.kt_outside.specs.Faults.{Rose};
ghost use Rattle.std.specs.Fmt.{decimal};
ghost use Rattle.std.specs.Io.KnownBytes.{Appends};
ghost use Rattle.std.specs.Prelude.{◌≡◌, ◌≤◌, ◌++◌, codes, OnErr, OnOk, string_bytes};

use crate::answers::Answer;
use itoa::Buffer;
use kt_base::Name;
use kt_outside::{Failed, Sink, write_all};

/// Writes two pieces and the end of a line.
fn write_line<S: Sink>(sink: &mut S, before: &[u8], after: &[u8]) -> Result<(), Failed>
    ensures all { OnOk result (Appends (S.taken sink.old) (S.taken sink.new) (line (before.now ++ after.now))) }
    ensures failed { OnErr result (Rose (S.faults sink.old) (S.faults sink.new)) }
    ensures not_lowered { S.faults sink.old ≤ S.faults sink.new }
{
    write_all(sink, before)?;
    write_all(sink, after)?;
    write_all(sink, b"\n")
}

/// Writes a piece, a number in decimal, and the end of a line.
fn write_number<S: Sink>(sink: &mut S, before: &[u8], n: u64) -> Result<(), Failed>
    ensures all { OnOk result (Appends (S.taken sink.old) (S.taken sink.new) (line (before.now ++ decimal n))) }
    ensures failed { OnErr result (Rose (S.faults sink.old) (S.faults sink.new)) }
    ensures not_lowered { S.faults sink.old ≤ S.faults sink.new }
{
    let mut digits = Buffer::new();
    write_line(sink, before, digits.format(n).as_bytes())
}

/// Writes that a file is no class file.
fn write_bad<S: Sink>(sink: &mut S, file: &str, offset: u64) -> Result<(), Failed>
    ensures all { OnOk result (Appends (S.taken sink.old) (S.taken sink.new)
        (line (file.now ++ (codes ": bad bytes at " ++ decimal offset)))) }
    ensures failed { OnErr result (Rose (S.faults sink.old) (S.faults sink.new)) }
    ensures not_lowered { S.faults sink.old ≤ S.faults sink.new }
{
    write_all(sink, file.as_bytes())?;
    write_number(sink, b": bad bytes at ", offset)
}

/// Writes a method by its number, and where it is rejected.
fn write_place<S: Sink>(sink: &mut S, method: u32, offset: u32) -> Result<(), Failed>
    ensures all { OnOk result (Appends (S.taken sink.old) (S.taken sink.new)
        (line (decimal method ++ (codes " rejected at " ++ decimal offset)))) }
    ensures failed { OnErr result (Rose (S.faults sink.old) (S.faults sink.new)) }
    ensures not_lowered { S.faults sink.old ≤ S.faults sink.new }
{
    let mut digits = Buffer::new();
    write_all(sink, digits.format(method).as_bytes())?;
    write_number(sink, b" rejected at ", offset as u64)
}

/// Writes that a class is rejected.
fn write_rejected<S: Sink>(
    sink: &mut S,
    class: &Name,
    method: u32,
    offset: u32,
) -> Result<(), Failed>
    ensures all { OnOk result (Appends (S.taken sink.old) (S.taken sink.new)
        (line (class.now ++ (codes ".class: method " ++ (decimal method ++ (codes " rejected at " ++ decimal offset)))))) }
    ensures failed { OnErr result (Rose (S.faults sink.old) (S.faults sink.new)) }
    ensures not_lowered { S.faults sink.old ≤ S.faults sink.new }
{
    write_all(sink, class.as_bytes())?;
    write_all(sink, b".class: method ")?;
    write_place(sink, method, offset)
}

/// Writes the line of an answer that isn't the one for success.
fn write_refusal<S: Sink>(sink: &mut S, answer: &Answer) -> Result<(), Failed>
    ensures all { OnOk result (Appends (S.taken sink.old) (S.taken sink.new) (err_line answer.now)) }
    ensures failed { OnErr result (Rose (S.faults sink.old) (S.faults sink.new)) }
    ensures not_lowered { S.faults sink.old ≤ S.faults sink.new }
{
    match answer {
        Answer::Fine => Ok(()),
        Answer::Altered { file } => write_line(
            sink,
            file.as_str().as_bytes(),
            b": written otherwise",
        ),
        Answer::Usage => write_line(sink, b"usage: ", b"FILE.."),
        Answer::NoMemory => write_line(sink, b"out of ", b"memory"),
        Answer::CannotRead { file } => write_line(sink, b"cannot read ", file.as_str().as_bytes()),
        Answer::BadBytes { file, offset } => write_bad(sink, file.as_str(), *offset),
        Answer::Missing { class } => write_line(sink, b"missing class ", class.as_bytes()),
        Answer::Cyclic { class } => write_line(sink, b"cyclic class ", class.as_bytes()),
        Answer::NoMain => write_line(sink, b"no ", b"main"),
        Answer::Rejected {
            class,
            method,
            offset,
        } => write_rejected(sink, class, *method, *offset),
    }
}

/// Writes the line of the answer for success.
fn write_success<S: Sink>(sink: &mut S, answer: &Answer) -> Result<(), Failed>
    ensures all { OnOk result (Appends (S.taken sink.old) (S.taken sink.new) (out_line answer.now)) }
    ensures failed { OnErr result (Rose (S.faults sink.old) (S.faults sink.new)) }
    ensures not_lowered { S.faults sink.old ≤ S.faults sink.new }
{
    match answer {
        Answer::Fine => write_all(sink, b"ok\n"),
        _ => Ok(()),
    }
}

/// Tells an answer: `ok` goes to the output, every other line to the stream of errors. A fault of a stream changes
/// nothing.
pub fn tell<O: Sink, E: Sink>(answer: &Answer, out: &mut O, err: &mut E)
    ensures out { Tells (stream (O.taken out.old) (O.faults out.old)) (stream (O.taken out.new) (O.faults out.new))
        (out_line answer.now) }
    ensures err { Tells (stream (E.taken err.old) (E.faults err.old)) (stream (E.taken err.new) (E.faults err.new))
        (err_line answer.now) }
    ensures out_not_lowered { O.faults out.old ≤ O.faults out.new }
    ensures err_not_lowered { E.faults err.old ≤ E.faults err.new }
{
    let _ = write_success(out, answer);
    let _ = write_refusal(err, answer);
}
