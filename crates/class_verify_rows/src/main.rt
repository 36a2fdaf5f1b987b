//! Verifies each method and each class of the table on standard input, and tells where it is refused.
//!
//! A line is answered by `-` where it is verified, by the offset, or for a class by the method, where it is refused, by the
//! class, the method and the offset where it is refused elsewhere; then the rule that it shows, and what the table says
//! where that differs.
#![tactic(auto)]

mod classes;
mod methods;
mod parts;
mod pool;
mod rows;

use rows::told_of;
use std::io;

fn main(rt: HostRuntime) -> io::Result<()> {
    let alloc = rt.alloc();
    for line in rt.lines(alloc) {
        let line = line?;
        let text = line.as_str();
        if text.is_empty() || text.starts_with('#') {
            continue;
        }
        match told_of(alloc, text) {
            Ok(told) => println!(rt; "{}", told.as_str())?,
            Err(_) => println!(rt; "out of memory")?,
        }
    }
    Ok(())
}
