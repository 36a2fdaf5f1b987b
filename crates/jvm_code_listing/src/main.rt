//! Lists the code whose bytes stand on standard input, a line of hexadecimal digits for each code array: the offset of
//! each instruction and the instruction. With the argument `count` only how many there are.
#![tactic(auto)]

use jvm_code::{CodeErr, Instr, decode};
use std::alloc::{AllocError, Global};
use std::{env, io};

/// The bytes that hexadecimal digits, two by two, stand for.
fn bytes_of(alloc: Global, hex: &str) -> Result<Vec<u8>, AllocError> {
    let mut bytes = Vec::new(alloc);
    let mut high = None;
    for digit in hex.as_bytes() {
        let value = match *digit {
            b'0'..=b'9' => *digit - b'0',
            b'a'..=b'f' => *digit - b'a' + 10,
            _ => continue,
        };
        match high {
            None => high = Some(value),
            Some(first) => {
                bytes.push((first as u8 % 16) * 16 + value)?;
                high = None;
            }
        }
    }
    Ok(bytes)
}

fn code_of(alloc: Global, bytes: &[u8]) -> Result<Vec<(u32, Instr)>, CodeErr> {
    if bytes.len() < 4294967296 {
        decode(alloc, bytes)
    } else {
        Err(CodeErr::NoMemory)
    }
}

fn main(rt: HostRuntime) -> io::Result<()> {
    let count_only = env::args(&rt)?.nth(1).is_some();
    for line in rt.lines(rt.alloc()) {
        let bytes = bytes_of(rt.alloc(), line?.as_str())?;
        match code_of(rt.alloc(), &bytes) {
            Err(error) => println!(rt; "{error}")?,
            Ok(code) => {
                if count_only {
                    println!(rt; "{} instructions", code.len())?;
                } else {
                    for item in &code {
                        println!(rt; "{}: {:?}", item.0, item.1)?;
                    }
                }
            }
        }
    }
    Ok(())
}
