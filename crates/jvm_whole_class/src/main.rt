//! Writes the class file of a class that has everything that the format has, as hexadecimal digits on one line:
//! interfaces, fields of each type, an abstract method, each kind of mention, both switches, wide forms, handlers, and
//! a frame in each form. The class is put together from its parts.
#![tactic(auto)]

mod class;
mod code;
mod errors;
mod frames;
mod methods;
mod pool;

use crate::class::class_bytes;
use std::io;

fn main(rt: HostRuntime) -> io::Result<()> {
    match class_bytes(rt.alloc()) {
        Ok(bytes) => {
            for byte in &bytes {
                print!(rt; "{byte:02x}")?;
            }
            println!(rt; "")
        }
        Err(error) => println!(rt; "{error}"),
    }
}
