//! The commands that one thread serves.

ghost use Rattle.std.specs.Prelude.{◌≡◌, ◌≢◌, ◌≤◌, ◌⊎◌, [], map, Some};
ghost use Rattle.std.specs.String.{string_bytes};
ghost use Rattle.std.specs.Io.KnownBytes.{Appends};
ghost use Rattle.kt_base.specs.Refusals.{refusal_text};
ghost use Rattle.kt_base.specs.Report.{line};
ghost use Rattle.kt_outside.specs.Faults.{Rose};
ghost use Rattle.kt_outside.specs.Held.{AppendsPrefix};
ghost use Rattle.ktrun.specs.Headline.{Headline, outside, stream, Tells};
ghost use Rattle.ktrun.specs.Statuses.{cannot_write, done, no_memory, refused, status_line};
ghost use Rattle.ktrun.specs.Words.{file_to_run};

use crate::running::{Finished, Stop, run_file};
use crate::statuses::{
    CANNOT_READ, CANNOT_WRITE, DONE, NO_MEMORY, NOT_BUILT, REFUSED, USAGE, write_line,
};
use crate::words::file_to_run;
use kt_base::Refusal;
use kt_outside::{Failed, Files, Sink, write_all};
use std::alloc::Global;

/// How a command ended.
#[derive(Debug, Drop)]
pub struct Outcome {
    pub status: u8,
    /// The coroutine of each step, in order; empty where nothing was run.
    pub choices: Vec<u32>,
}

/// Does what the words ask for.
pub fn plain_main<F: Files, O: Sink, E: Sink>(
    alloc: Global,
    words: &[String],
    files: &mut F,
    out: &mut O,
    err: &mut E,
) -> Outcome
    ensures headline { Headline (file_to_run (map string_bytes words.now))
        (outside (F.held files.old) (F.read_faults files.old) (F.put_faults files.old)
        (stream (O.taken out.old) (O.faults out.old)) (stream (E.taken err.old) (E.faults err.old)))
        (outside (F.held files.new) (F.read_faults files.new) (F.put_faults files.new)
        (stream (O.taken out.new) (O.faults out.new)) (stream (E.taken err.new) (E.faults err.new)))
        result.status result.choices.items }
{
    match file_to_run(words) {
        Some(name) => run_named(alloc, name, files, out, err),
        None => stopped(alloc, err, USAGE, ""),
    }
}

/// Runs the file of this name and writes what it printed.
fn run_named<F: Files, O: Sink, E: Sink>(
    alloc: Global,
    name: &str,
    files: &mut F,
    out: &mut O,
    err: &mut E,
) -> Outcome
    ensures headline { Headline (Some name.now)
        (outside (F.held files.old) (F.read_faults files.old) (F.put_faults files.old)
        (stream (O.taken out.old) (O.faults out.old)) (stream (E.taken err.old) (E.faults err.old)))
        (outside (F.held files.new) (F.read_faults files.new) (F.put_faults files.new)
        (stream (O.taken out.new) (O.faults out.new)) (stream (E.taken err.new) (E.faults err.new)))
        result.status result.choices.items }
{
    match run_file(alloc, name, files) {
        Ok(run) => {
            let outcome = deliver(out, run);
            // A fault of this stream changes nothing.
            let _ = write_line(err, outcome.status, name);
            outcome
        }
        Err(Stop::Refused(refusal)) => refuse(alloc, err, refusal),
        Err(Stop::NoMemory) => stopped(alloc, err, NO_MEMORY, name),
        Err(Stop::ReadFault) => stopped(alloc, err, CANNOT_READ, name),
        Err(Stop::NotBuilt) => stopped(alloc, err, NOT_BUILT, name),
    }
}

/// Tells how a text is refused, which takes memory for its line.
fn refuse<E: Sink>(alloc: Global, err: &mut E, refusal: Refusal) -> Outcome
    ensures statuses { (result.status ≡ refused) ⊎ (result.status ≡ no_memory) }
    ensures refused { result.status ≡ refused
        → Tells (stream (E.taken err.old) (E.faults err.old)) (stream (E.taken err.new) (E.faults err.new))
        (line (refusal_text refusal)) }
    ensures no_memory { result.status ≡ no_memory
        → Tells (stream (E.taken err.old) (E.faults err.old)) (stream (E.taken err.new) (E.faults err.new))
        (status_line no_memory []) }
    ensures no_choices { result.choices.items ≡ [] }
{
    match refusal.to_string(alloc) {
        Ok(text) => stopped(alloc, err, REFUSED, text.as_str()),
        Err(_) => stopped(alloc, err, NO_MEMORY, ""),
    }
}

/// The outcome where nothing was run, of which the error stream is told.
fn stopped<E: Sink>(alloc: Global, err: &mut E, status: u8, told: &str) -> Outcome
    ensures status { result.status ≡ status }
    ensures no_choices { result.choices.items ≡ [] }
    ensures line { Tells (stream (E.taken err.old) (E.faults err.old)) (stream (E.taken err.new) (E.faults err.new))
        (status_line status told.now) }
{
    // A fault of this stream changes nothing.
    let _ = write_line(err, status, told);
    Outcome {
        status,
        choices: Vec::new(alloc),
    }
}

/// Writes what a run printed.
fn deliver<O: Sink>(out: &mut O, run: Finished) -> Outcome
    ensures done { result.status ≡ done → Appends (O.taken out.old) (O.taken out.new) run.text.items }
    ensures cannot_write { result.status ≡ cannot_write
        → AppendsPrefix (O.taken out.old) (O.taken out.new) run.text.items × Rose (O.faults out.old) (O.faults out.new) }
    ensures no_fault { result.status ≢ cannot_write → O.faults out.new ≡ O.faults out.old }
    ensures only { (result.status ≡ done) ⊎ (result.status ≡ cannot_write) }
    ensures choices { result.choices.items ≡ run.choices.items }
    ensures not_lowered { O.faults out.old ≤ O.faults out.new }
{
    let status = match write_all(out, run.text.as_slice()) {
        Ok(()) => DONE,
        Err(Failed) => CANNOT_WRITE,
    };
    Outcome {
        status,
        choices: run.choices,
    }
}
