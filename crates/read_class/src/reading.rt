//! Files by their names.

ghost use Rattle.class_answers.specs.Telling.{stream};
ghost use Rattle.read_class.specs.Reading.{Ends, IsAnswer, later, Told};
ghost use Rattle.std.specs.Prelude.{◌≡◌, map};
ghost use Rattle.std.specs.String.{string_bytes};

use crate::judging::answer_of_bytes;
use class_answers::{Answer, read_file, tell};
use kt_outside::{Files, Sink};
use std::alloc::Global;

/// Reads the file of this name, and answers whether it is a class file.
pub fn answer_of<F: Files>(alloc: Global, name: &str, files: &mut F) -> Answer
    ensures answer { IsAnswer (F.held files.old) name.now (F.read_faults files.old) (F.read_faults files.new) result }
    ensures files_stay { F.held files.new ≡ F.held files.old }
    ensures no_put { F.put_faults files.new ≡ F.put_faults files.old }
{
    match read_file(alloc, name, files) {
        Ok(bytes) => answer_of_bytes(alloc, name, bytes.as_slice()),
        Err(answer) => answer,
    }
}

/// The status behind one more answer: that of the first answer whose status isn't 0.
fn first_status(status: u8, answer: &Answer) -> u8
    ensures { result ≡ later status answer.now }
{
    if status == 0 { answer.status() } else { status }
}

/// Tells of each of these files, one after the other, whether it is a class file. Gives the status of the first that is
/// none, and 0 where all are.
fn tell_each<F: Files, O: Sink, E: Sink>(
    alloc: Global,
    names: &[String],
    files: &mut F,
    out: &mut O,
    err: &mut E,
) -> u8
    ensures told { Told (F.held files.old) (map string_bytes names.now) (F.read_faults files.old) (F.read_faults files.new)
        (stream (O.taken out.old) (O.faults out.old)) (stream (O.taken out.new) (O.faults out.new))
        (stream (E.taken err.old) (E.faults err.old)) (stream (E.taken err.new) (E.faults err.new)) result }
    ensures files_stay { F.held files.new ≡ F.held files.old }
    ensures no_put { F.put_faults files.new ≡ F.put_faults files.old }
{
    let mut status = 0;
    for name in names {
        let answer = answer_of(alloc, name.as_str(), files);
        tell(&answer, out, err);
        status = first_status(status, &answer);
    }
    status
}

/// Tells of each file that is named whether it is a class file, and gives the status of the program.
pub fn judge_files<F: Files, O: Sink, E: Sink>(
    alloc: Global,
    names: &[String],
    files: &mut F,
    out: &mut O,
    err: &mut E,
) -> u8
    ensures told { Ends (F.held files.old) (map string_bytes names.now) (F.read_faults files.old) (F.read_faults files.new)
        (stream (O.taken out.old) (O.faults out.old)) (stream (O.taken out.new) (O.faults out.new))
        (stream (E.taken err.old) (E.faults err.old)) (stream (E.taken err.new) (E.faults err.new)) result }
    ensures files_stay { F.held files.new ≡ F.held files.old }
    ensures no_put { F.put_faults files.new ≡ F.put_faults files.old }
{
    match names {
        [] => {
            tell(&Answer::Usage, out, err);
            Answer::Usage.status()
        }
        [_, ..] => tell_each(alloc, names, files, out, err),
    }
}
