//! Writes the class file of a program that prints numbers, as hexadecimal digits on one line.
//!
//! Its steps stand on standard input, one a line: `push` with a number, `add`, `sub`, `mul`, `print`.
#![tactic(auto)]

use jvm_class_first::{is_plain_code, write_plain};
use kt_base::Plain;
use std::io;

/// The step that a line names.
fn step_of(line: &str) -> Option<Plain> {
    match line {
        "add" => Some(Plain::Add),
        "sub" => Some(Plain::Sub),
        "mul" => Some(Plain::Mul),
        "print" => Some(Plain::Print),
        _ => Some(Plain::Push(line.strip_prefix("push ")?.parse::<i32>().ok()?)),
    }
}

fn main(rt: HostRuntime) -> io::Result<()> {
    let mut code = Vec::new(rt.alloc());
    for line in rt.lines(rt.alloc()) {
        match step_of(line?.as_str()) {
            Some(step) => code.push(step)?,
            None => return println!(rt; "no step"),
        }
    }
    if !is_plain_code(&code) {
        return println!(rt; "code that doesn't run");
    }
    match write_plain(rt.alloc(), &code) {
        Ok(bytes) => {
            for byte in &bytes {
                print!(rt; "{byte:02x}")?;
            }
            println!(rt; "")
        }
        Err(error) => println!(rt; "{error}"),
    }
}
