//! What the program does with the files that are named.

ghost use Rattle.class_answers.specs.Telling.{stream};
ghost use Rattle.std.specs.Prelude.{◌≡◌, map};
ghost use Rattle.std.specs.String.{string_bytes};
ghost use Rattle.verify_classes.specs.Verifying.{AnswersWords, Ends, IsAnswer};

use crate::judging::judge;
use crate::reading::read_all;
use class_answers::{Answer, tell};
use kt_outside::{Files, Sink};
use std::alloc::Global;

/// What is answered of these files: they are read in order, then linked, then verified, each only where all before went
/// well.
fn answer_of<F: Files>(alloc: Global, names: &[String], files: &mut F) -> Answer
    ensures answer { IsAnswer (F.held files.old) (map string_bytes names.now) (F.read_faults files.old)
        (F.read_faults files.new) result }
    ensures files_stay { F.held files.new ≡ F.held files.old }
    ensures no_put { F.put_faults files.new ≡ F.put_faults files.old }
{
    match read_all(alloc, names, files) {
        Ok(classes) => judge(alloc, classes),
        Err(answer) => answer,
    }
}

/// What is answered to the words of the command, which name the files.
fn answer_to<F: Files>(alloc: Global, names: &[String], files: &mut F) -> Answer
    ensures answer { AnswersWords (F.held files.old) (map string_bytes names.now) (F.read_faults files.old)
        (F.read_faults files.new) result }
    ensures files_stay { F.held files.new ≡ F.held files.old }
    ensures no_put { F.put_faults files.new ≡ F.put_faults files.old }
{
    match names {
        [] => Answer::Usage,
        [_, ..] => answer_of(alloc, names, files),
    }
}

/// Tells what is answered of the files that are named, and gives the status of the program.
pub fn verify_files<F: Files, O: Sink, E: Sink>(
    alloc: Global,
    names: &[String],
    files: &mut F,
    out: &mut O,
    err: &mut E,
) -> u8
    ensures told { Ends (F.held files.old) (map string_bytes names.now) (F.read_faults files.old) (F.read_faults files.new)
        (stream (O.taken out.old) (O.faults out.old)) (stream (O.taken out.new) (O.faults out.new))
        (stream (E.taken err.old) (E.faults err.old)) (stream (E.taken err.new) (E.faults err.new)) result }
    ensures files_stay { F.held files.new ≡ F.held files.old }
    ensures no_put { F.put_faults files.new ≡ F.put_faults files.old }
{
    let answer = answer_to(alloc, names, files);
    tell(&answer, out, err);
    answer.status()
}
