//! Lists parts of class files, one for each line of standard input, whose bytes stand as hexadecimal digits:
//!
//! - `pool HEX`: the entries of the constant pool at the front of the bytes, and where it ends;
//! - `frames TYPES HEX`: the frames that the bytes are, behind the pool that was read last, expanded. `TYPES` are the
//!   types at the start of the method, between commas, or `-` for none;
//! - `descriptor TEXT`: the types in a descriptor.
//!
//! With the argument `count` only how many entries and frames there are.
#![tactic(auto)]

mod frames;
mod hex;

use crate::frames::frames_of;
use crate::hex::bytes_of;
use jvm_class_formats::Place;
use jvm_class_types::Frame;
use jvm_pool::{Descriptor, DescriptorErr, Pool, read_descriptor};
use jvm_pool_reader::read_pool;
use kt_base::Name;
use std::alloc::Global;
use std::{env, io};

/// Lists the entries of a pool, each with its index.
fn list_pool(rt: &HostRuntime, pool: &Pool) -> io::Result<()> {
    for entry in pool.entries() {
        println!(rt; "#{}: {entry:?}", pool.index_of(entry).unwrap_or(0))?;
    }
    Ok(())
}

/// Lists frames.
fn list_frames(rt: &HostRuntime, frames: &[Frame]) -> io::Result<()> {
    for frame in frames {
        println!(rt; "{frame:?}")?;
    }
    Ok(())
}

/// The types in a descriptor.
fn descriptor_of(alloc: Global, text: &str) -> Result<Descriptor, DescriptorErr> {
    if !text.is_ascii() {
        return Err(DescriptorErr::Bad);
    }
    read_descriptor(alloc, &Name::of(alloc, text.as_bytes())?)
}

/// Reads the pool of a line, and lists it.
fn pool_line(rt: &HostRuntime, hex: &str, count_only: bool) -> io::Result<Option<Pool>> {
    let bytes = bytes_of(rt.alloc(), hex)?;
    match read_pool(rt.alloc(), Place::start(&bytes)) {
        Ok((pool, place)) => {
            println!(rt; "{} entries to {}", pool.len(), place.offset())?;
            if !count_only {
                list_pool(rt, &pool)?;
            }
            Ok(Some(pool))
        }
        Err(error) => {
            println!(rt; "{error}")?;
            Ok(None)
        }
    }
}

/// Reads the frames of a line, and lists them.
fn frames_line(rt: &HostRuntime, line: &str, pool: &Pool, count_only: bool) -> io::Result<()> {
    match frames_of(rt.alloc(), line, pool) {
        Ok(frames) => {
            println!(rt; "{} frames", frames.len())?;
            if !count_only {
                list_frames(rt, &frames)?;
            }
        }
        Err(error) => println!(rt; "{error}")?,
    }
    Ok(())
}

/// Reads the descriptor of a line, and lists it.
fn descriptor_line(rt: &HostRuntime, text: &str) -> io::Result<()> {
    match descriptor_of(rt.alloc(), text) {
        Ok(descriptor) => println!(rt; "{descriptor:?}")?,
        Err(error) => println!(rt; "{error}")?,
    }
    Ok(())
}

fn main(rt: HostRuntime) -> io::Result<()> {
    let count_only = env::args(&rt)?.nth(1).is_some();
    let mut pool = Pool::new(rt.alloc());
    for line in rt.lines(rt.alloc()) {
        let line = line?;
        let (part, rest) = line.as_str().split_once(' ').unwrap_or(("", ""));
        match part {
            "pool" => {
                if let Some(read) = pool_line(&rt, rest, count_only)? {
                    pool = read;
                }
            }
            "frames" => frames_line(&rt, rest, &pool, count_only)?,
            "descriptor" => descriptor_line(&rt, rest)?,
            _ => {}
        }
    }
    Ok(())
}
