//! Tells whether the classes of the files that are named are closed and keep the rules of verification: `ok` where they
//! do, else the first reason why not.
#![tactic(auto)]

mod judging;
mod reading;
mod verifying;

use class_answers::{Answer, tell};
use kt_outside::{RealFiles, RealSink};
use std::env;
use std::process::ExitCode;
use verifying::verify_files;

fn main(rt: HostRuntime) -> ExitCode {
    let alloc = rt.alloc();
    let mut out = RealSink::new(rt.stdout());
    let mut err = RealSink::new(rt.stderr());
    let status = match env::args(&rt) {
        Ok(words) => match words.skip(1).collect::<Vec<String>>(alloc) {
            Ok(names) => {
                let mut files = RealFiles::new(rt, alloc);
                verify_files(alloc, names.as_slice(), &mut files, &mut out, &mut err)
            }
            Err(_) => {
                tell(&Answer::NoMemory, &mut out, &mut err);
                Answer::NoMemory.status()
            }
        },
        // A word isn't text.
        Err(_) => {
            tell(&Answer::Usage, &mut out, &mut err);
            Answer::Usage.status()
        }
    };
    ExitCode::from(status)
}
