//! The outside as the system has it. Files tell nothing of what they hold, and a stream tells what its writer tells.
//! This is the trusted edge of the program.

ghost use Rattle.std.specs.Io.KnownBytes.{Appends, Keeps};
ghost use Rattle.std.specs.Prelude.{◌≡◌, ◌+◌, ◌<◌, ◌≤◌, ℕ, List, [], ◌++◌, None, map, take, length, IfSome};
ghost use Rattle.std.specs.String.{string_bytes};

use crate::outside::{Failed, FileErr, Files, Sink};
use std::alloc::Global;
use std::io::{Read, Write};
use std::{fs, io, rt};

/// How many bytes one turn of a read asks for at most.
const PIECE: usize = 4096;

/// How many turns a call takes at most: each gives a byte, or was interrupted.
const MOST_TURNS: u64 = 1 << 32;

/// The files of the system.
#[derive(Drop)]
pub struct RealFiles<R: rt::Files + Drop> {
    system: R,
    alloc: Global,
    read_faults: Vec<String>,
    put_faults: Vec<String>,
}

impl<R: rt::Files + Drop> RealFiles<R> {
    /// The files that this runtime reaches. No fault has come yet.
    pub fn new(system: R, alloc: Global) -> RealFiles<R>
        ensures no_read_faults { ⟦<RealFiles<R> as Files>⟧.read_faults result ≡ [] }
        ensures no_put_faults { ⟦<RealFiles<R> as Files>⟧.put_faults result ≡ [] }
    {
        RealFiles {
            system,
            alloc,
            read_faults: Vec::new(alloc),
            put_faults: Vec::new(alloc),
        }
    }
}

impl<R: rt::Files + Drop> Files for RealFiles<R> {
    ghost held = { λ _. None };

    ghost read_faults = { λ f. map string_bytes f.read_faults.items };

    ghost put_faults = { λ f. map string_bytes f.put_faults.items };

    /// Reads the file to its end. Room for a fault is made first.
    fn read(&mut self, name: &str, into: &mut Vec<u8>) -> Result<(), FileErr> {
        let fault = String::from_str(self.alloc, name)?;
        self.read_faults.reserve(1)?;
        let length = into.len();
        let outcome = read_to_end(&self.system, name, into);
        match outcome {
            Ok(()) => {}
            Err(FileErr::NoMemory) => into.truncate(length),
            Err(FileErr::Failed) => {
                into.truncate(length);
                self.read_faults.push_reserved(fault);
            }
        }
        outcome
    }

    /// Writes the whole file. Room for a fault is made first.
    fn put(&mut self, name: &str, bytes: &[u8]) -> Result<(), FileErr> {
        let fault = String::from_str(self.alloc, name)?;
        self.put_faults.reserve(1)?;
        match fs::write(&self.system, name, bytes) {
            Ok(()) => Ok(()),
            Err(_) => {
                self.put_faults.push_reserved(fault);
                Err(FileErr::Failed)
            }
        }
    }
}

/// Appends the bytes of the file, or some of them where it fails.
fn read_to_end<R: rt::Files>(system: &R, name: &str, into: &mut Vec<u8>) -> Result<(), FileErr>
    ensures { (more : List ℕ) × (into.new.items ≡ into.old.items ++ more) }
{
    let Ok(mut file) = fs::open(system, name) else {
        return Err(FileErr::Failed);
    };
    let mut piece = [0; PIECE];
    for _ in 0..MOST_TURNS {
        match file.read(&mut piece) {
            Ok(0) => return Ok(()),
            Ok(count) => into.extend_from_slice(&piece[..count])?,
            Err(error) if error.kind() == io::ErrorKind::Interrupted => {}
            Err(_) => return Err(FileErr::Failed),
        }
    }
    Err(FileErr::Failed)
}

/// Takes bytes from the front, at least one where there is one, and tells how many; `None` where the writer takes none.
fn write_once<W: Write>(stream: &mut W, bytes: &[u8]) -> Option<usize>
    ensures within { IfSome result (λ count. count ≤ length bytes.now) }
    ensures some { IfSome result (λ count. 0 < length bytes.now → 0 < count) }
    ensures prefix { IfSome result
        (λ count. Appends (W.contents stream.old) (W.contents stream.new) (take count bytes.now)) }
    ensures nothing { result ≡ None → Keeps (W.contents stream.old) (W.contents stream.new) }
{
    for _ in 0..MOST_TURNS {
        match stream.write(bytes) {
            Ok(0) if !bytes.is_empty() => return None,
            Ok(count) => return Some(count),
            Err(error) if error.kind() == io::ErrorKind::Interrupted => {}
            Err(_) => return None,
        }
    }
    None
}

/// A stream of the system.
#[derive(Drop)]
pub struct RealSink<W: Write + Drop> {
    stream: W,
    faults: u64,
}

impl<W: Write + Drop> RealSink<W> {
    /// The stream that this writer reaches. No fault has come yet.
    pub fn new(stream: W) -> RealSink<W>
        ensures { ⟦<RealSink<W> as Sink>⟧.faults result ≡ 0 }
    {
        RealSink { stream, faults: 0 }
    }
}

impl<W: Write + Drop> Sink for RealSink<W> {
    ghost taken = { λ s. W.contents s.stream };

    ghost faults = { λ s. s.faults };

    /// Writes once. A write that takes nothing of a piece that isn't empty counts as a fault.
    fn write(&mut self, bytes: &[u8]) -> Result<usize, Failed> {
        match write_once(&mut self.stream, bytes) {
            Some(count) => Ok(count),
            None => {
                self.faults = self.faults.saturating_add(1);
                Err(Failed)
            }
        }
    }
}
