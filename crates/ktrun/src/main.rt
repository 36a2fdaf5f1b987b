//! `ktrun` compiles and runs programs of a subset of Kotlin.
#![tactic(auto)]

ghost use Rattle.ktrun.specs.Headline.{Tells, stream};
ghost use Rattle.ktrun.specs.Statuses.{no_memory, status_line, usage};
ghost use Rattle.std.specs.Prelude.{◌≡◌, ◌≢◌, []};

mod machine;
mod plain;
mod running;
mod statuses;
mod words;

use kt_outside::{RealFiles, RealSink, Sink};
use plain::plain_main;
use statuses::{NO_MEMORY, USAGE, write_line};
use std::env;
use std::io::ErrorKind;
use std::process::ExitCode;

fn main(rt: HostRuntime) -> ExitCode {
    let alloc = rt.alloc();
    let mut out = RealSink::new(rt.stdout());
    let mut err = RealSink::new(rt.stderr());
    let status = match env::args(&rt) {
        Ok(words) => match words.skip(1).collect::<Vec<String>>(alloc) {
            Ok(words) => {
                let mut files = RealFiles::new(rt, alloc);
                plain_main(alloc, words.as_slice(), &mut files, &mut out, &mut err).status
            }
            Err(_) => refuse(&mut err, ErrorKind::OutOfMemory),
        },
        Err(error) => refuse(&mut err, error.kind()),
    };
    ExitCode::from(status)
}

/// The status where the words can't be had: memory was refused, or one of them isn't text.
fn refuse<E: Sink>(err: &mut E, kind: ErrorKind) -> u8
    ensures no_memory { kind ≡ ErrorKind.OutOfMemory → result ≡ no_memory }
    ensures usage { kind ≢ ErrorKind.OutOfMemory → result ≡ usage }
    ensures line { Tells (stream (E.taken err.old) (E.faults err.old)) (stream (E.taken err.new) (E.faults err.new))
        (status_line result []) }
{
    let status = match kind {
        ErrorKind::OutOfMemory => NO_MEMORY,
        _ => USAGE,
    };
    // A fault of this stream changes nothing.
    let _ = write_line(err, status, "");
    status
}

#[cfg(test)]
mod tests;
