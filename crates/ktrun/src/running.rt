//! Running a source text.

ghost use Rattle.std.specs.Prelude.{◌≡◌, ◌≢◌, ℤ, List, [], map, Err, IfOk};
ghost use Rattle.kt_base.specs.StackCode.{Prints};
ghost use Rattle.jvm_class_first.specs.Instructions.{IsPlainCode};
ghost use Rattle.kt_outside.specs.Faults.{Adds};
ghost use Rattle.kt_base.specs.declared.refusals.Refusal.{Refusal};
ghost use Rattle.kt_parser.specs.Refusals.{IsRefused};
ghost use Rattle.ktrun.specs.FirstRuns.{Ends, text_of};
ghost use Rattle.ktrun.specs.Headline.{Ran, IsForeign, HoldsForeign, HoldsRefused};

use crate::machine::{printed_by, text_of};
use jvm_class_first::{PlainErr, read_plain, write_plain};
use kt_base::{FrontErr, NoMemory, Plain, Refusal};
use kt_first::{FirstErr, parse_first};
use kt_outside::{FileErr, Files};
use kt_parser::read_source;
use std::alloc::Global;

/// What a run leaves when it has ended.
#[derive(Debug, Drop)]
pub struct Finished {
    /// All that it printed.
    pub text: Vec<u8>,
    /// The coroutine of each step, in order.
    pub choices: Vec<u32>,
}

/// Why a file wasn't run.
#[derive(Clone, Copy, Debug, PartialEq, Eq)]
pub enum Stop {
    NoMemory,
    ReadFault,
    /// The text is of the language, and not of what is built of it.
    NotBuilt,
    /// The text isn't of the language.
    Refused(Refusal),
}

impl From<FileErr> for Stop {
    ghost use Rattle.ktrun.specs.Stops.{stop_of_file};

    ghost from_gives = { λ from to. to ≡ stop_of_file from };

    fn from(error: FileErr) -> Stop {
        match error {
            FileErr::Failed => Stop::ReadFault,
            FileErr::NoMemory => Stop::NoMemory,
        }
    }
}

impl From<FrontErr> for Stop {
    ghost use Rattle.ktrun.specs.Stops.{stop_of_source};

    ghost from_gives = { λ from to. to ≡ stop_of_source from };

    fn from(error: FrontErr) -> Stop {
        match error {
            FrontErr::Refused(refusal) => Stop::Refused(refusal),
            FrontErr::NoMemory => Stop::NoMemory,
        }
    }
}

impl From<FirstErr> for Stop {
    ghost use Rattle.ktrun.specs.Stops.{stop_of_text};

    ghost from_gives = { λ from to. to ≡ stop_of_text from };

    fn from(error: FirstErr) -> Stop {
        match error {
            FirstErr::NotBuilt => Stop::NotBuilt,
            FirstErr::NoMemory => Stop::NoMemory,
        }
    }
}

impl From<NoMemory> for Stop {
    ghost use Rattle.ktrun.specs.declared.running.Stop.TheVariants.{NoMemory};

    ghost from_gives = { λ _ to. to ≡ NoMemory };

    fn from(_: NoMemory) -> Stop {
        Stop::NoMemory
    }
}

/// Runs the file of this name.
pub fn run_file<F: Files>(alloc: Global, name: &str, files: &mut F) -> Result<Finished, Stop>
    ensures ran { IfOk result (λ run. Ran (F.held files.old) name.now run.choices.items run.text.items) }
    ensures read_fault { result ≡ Err Stop.ReadFault
        → Adds name.now (F.read_faults files.old) (F.read_faults files.new) }
    ensures no_read_fault { result ≢ Err Stop.ReadFault → F.read_faults files.new ≡ F.read_faults files.old }
    ensures not_built { result ≡ Err Stop.NotBuilt → HoldsForeign (F.held files.old) name.now }
    ensures refused { (r : Refusal) → result ≡ Err (Stop.Refused r) → HoldsRefused (F.held files.old) name.now r }
    ensures files_stay { F.held files.new ≡ F.held files.old }
    ensures no_put { F.put_faults files.new ≡ F.put_faults files.old }
{
    let mut source = Vec::new(alloc);
    files.read(name, &mut source)?;
    run_text(alloc, source.as_slice())
}

/// Runs a source text.
fn run_text(alloc: Global, source: &[u8]) -> Result<Finished, Stop>
    ensures ran { IfOk result (λ run. Ends source.now run.choices.items run.text.items [] 0) }
    ensures not_built { result ≡ Err Stop.NotBuilt → IsForeign source.now }
    ensures refused { (r : Refusal) → result ≡ Err (Stop.Refused r) → IsRefused source.now r }
    ensures no_read { result ≢ Err Stop.ReadFault }
{
    let _tree = read_source(alloc, source)?;
    let code = parse_first(alloc, source)?;
    let read = through_class(alloc, code.as_slice())?;
    Ok(run_code(alloc, read.as_slice())?)
}

/// The code, written as a class file and read back.
fn through_class(alloc: Global, code: &[Plain]) -> Result<Vec<Plain>, NoMemory>
    requires { IsPlainCode code.now }
    ensures { IfOk result (λ read. read.items ≡ code.now) }
{
    let class = write_plain(alloc, code)?;
    match read_plain(alloc, class.as_slice()) {
        Ok(read) => Ok(read),
        Err(PlainErr::NoMemory) => Err(NoMemory),
        Err(PlainErr::NotPlain) => unreachable!(),
    }
}

/// Runs the code of a program.
fn run_code(alloc: Global, code: &[Plain]) -> Result<Finished, NoMemory>
    requires { (values : List ℤ) × Prints code.now values }
    ensures { IfOk result
        (λ run. (values : List ℤ) × Prints code.now values × (run.text.items ≡ text_of values)
        × (run.choices.items ≡ map (λ _. 0) values)) }
{
    let values = printed_by(alloc, code)?;
    let text = text_of(alloc, values.as_slice())?;
    let choices = vec![in alloc; 0; values.len()]?;
    Ok(Finished { text, choices })
}
