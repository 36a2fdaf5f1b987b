//! Tells of each file that is named whether it is a class file: `ok` where it is that of a class, `NAME: bad bytes at N`
//! where it is that of none.
#![tactic(auto)]

mod judging;
mod reading;

use class_answers::{Answer, tell};
use kt_outside::{RealFiles, RealSink};
use reading::judge_files;
use std::env;
use std::process::ExitCode;

fn main(rt: HostRuntime) -> ExitCode {
    let alloc = rt.alloc();
    let mut out = RealSink::new(rt.stdout());
    let mut err = RealSink::new(rt.stderr());
    let status = match env::args(&rt) {
        Ok(words) => match words.skip(1).collect::<Vec<String>>(alloc) {
            Ok(names) => {
                let mut files = RealFiles::new(rt, alloc);
                judge_files(alloc, names.as_slice(), &mut files, &mut out, &mut err)
            }
            Err(_) => {
                tell(&Answer::NoMemory, &mut out, &mut err);
                Answer::NoMemory.status()
            }
        },
        // A word isn't text.
        Err(_) => {
            tell(&Answer::Usage, &mut out, &mut err);
            Answer::Usage.status()
        }
    };
    ExitCode::from(status)
}
