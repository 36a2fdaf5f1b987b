//! The outside in memory, which tells what it holds. Tests let chosen calls of it fail.

ghost use Rattle.std.specs.Prelude.{◌≡◌, ◌≢◌, ℕ, ◌+◌, ◌<◌, ◌≤◌, min, IsTrue, if◌then◌else◌, ◌⊎◌};
ghost use Rattle.std.specs.Prelude.{List, [], ◌∷◌, ◌++◌, map, length, take, position, vec_len, vec_capacity, Some, None, MatchOption};
ghost use Rattle.std.specs.Prelude.{IfOk, OnErr, OnOk, IsErr, Err, is_ok};
ghost use Rattle.std.specs.String.{string_bytes};
ghost use Rattle.kt_outside.specs.Faults.{Rose, Adds};
ghost use Rattle.kt_outside.specs.Held.{file_in, Holds, Lacks, Replaces};
ghost use Rattle.kt_outside.specs.Memory.{file_named, held_in, is_named, is_to_fail, names_in, next_call};

use crate::outside::{Failed, FileErr, Files, Sink};
use std::alloc::{AllocError, Global};

/// Files in memory. Of two files with one name the first counts.
#[derive(Debug, Drop)]
pub struct MemFiles {
    /// The files, each with its name.
    pub files: Vec<(String, Vec<u8>)>,
    bad_reads: Vec<u32>,
    bad_puts: Vec<u32>,
    reads: u64,
    puts: u64,
    read_faults: Vec<String>,
    put_faults: Vec<String>,
}

impl MemFiles {
    /// These files, with the numbers of the reads and of the puts that are to fail, each counted from 1.
    pub fn of(
        alloc: Global,
        files: Vec<(String, Vec<u8>)>,
        bad_reads: Vec<u32>,
        bad_puts: Vec<u32>,
    ) -> MemFiles
        ensures files { result.files ≡ files }
        ensures bad_reads { result.bad_reads ≡ bad_reads }
        ensures bad_puts { result.bad_puts ≡ bad_puts }
        ensures no_reads { result.reads ≡ 0 }
        ensures no_puts { result.puts ≡ 0 }
        ensures no_read_faults { ⟦<MemFiles as Files>⟧.read_faults result ≡ [] }
        ensures no_put_faults { ⟦<MemFiles as Files>⟧.put_faults result ≡ [] }
    {
        MemFiles {
            files,
            bad_reads,
            bad_puts,
            reads: 0,
            puts: 0,
            read_faults: Vec::new(alloc),
            put_faults: Vec::new(alloc),
        }
    }
}

impl Files for MemFiles {
    ghost held = { λ m. held_in m.files.items };

    ghost read_faults = { λ m. names_in m.read_faults.items };

    ghost put_faults = { λ m. names_in m.put_faults.items };

    /// Fails where the number of the read is listed, and where no file has the name. Else as every read.
    fn read(&mut self, name: &str, into: &mut Vec<u8>) -> Result<(), FileErr>
        ensures whole { (bytes : List ℕ) → Holds (held_in self.old.files.items) name.now bytes
            → OnOk result (into.new.items ≡ into.old.items ++ bytes) }
        ensures absent { Lacks (held_in self.old.files.items) name.now → IsErr result }
        ensures appends { OnOk result ((more : List ℕ) × (into.new.items ≡ into.old.items ++ more)) }
        ensures unread { OnErr result (into.new.items ≡ into.old.items) }
        ensures failed { result ≡ Err FileErr.Failed
            → Adds name.now (names_in self.old.read_faults.items) (names_in self.new.read_faults.items) }
        ensures unfailed { result ≢ Err FileErr.Failed
            → names_in self.new.read_faults.items ≡ names_in self.old.read_faults.items }
        ensures files_stay { self.new.files ≡ self.old.files }
        ensures put_faults_stay { self.new.put_faults ≡ self.old.put_faults }

        ensures listed { IsTrue (is_to_fail self.old.bad_reads.items self.old.reads) → IsErr result }
        ensures only { result ≡ Err FileErr.Failed
            → IsTrue (is_to_fail self.old.bad_reads.items self.old.reads)
            ⊎ (file_named self.old.files.items name.now ≡ None) }
        ensures counted { self.new.reads ≡ next_call self.old.reads }
        ensures puts_stay { self.new.puts ≡ self.old.puts }
        ensures bad_reads_stay { self.new.bad_reads ≡ self.old.bad_reads }
        ensures bad_puts_stay { self.new.bad_puts ≡ self.old.bad_puts }
    {
        let fails = is_to_fail(self.bad_reads.as_slice(), self.reads);
        self.reads = self.reads.saturating_add(1);
        if !fails {
            if let Some(bytes) = bytes_of(self.files.as_slice(), name) {
                return Ok(into.extend_from_slice(bytes)?);
            }
        }
        note(&mut self.read_faults, name)?;
        Err(FileErr::Failed)
    }

    /// Fails where the number of the put is listed. Else as every put.
    fn put(&mut self, name: &str, bytes: &[u8]) -> Result<(), FileErr>
        ensures replaced { OnOk result (Replaces (held_in self.new.files.items) name.now bytes.now) }
        ensures others_stay { (other : List ℕ) → other ≢ name.now
            → file_in (held_in self.new.files.items) other ≡ file_in (held_in self.old.files.items) other }
        ensures failed { result ≡ Err FileErr.Failed
            → Adds name.now (names_in self.old.put_faults.items) (names_in self.new.put_faults.items) }
        ensures unfailed { result ≢ Err FileErr.Failed
            → names_in self.new.put_faults.items ≡ names_in self.old.put_faults.items }
        ensures no_memory_stays { result ≡ Err FileErr.NoMemory → self.new.files.items ≡ self.old.files.items }
        ensures read_faults_stay { self.new.read_faults ≡ self.old.read_faults }

        ensures listed { IsTrue (is_to_fail self.old.bad_puts.items self.old.puts) → IsErr result }
        ensures only { result ≡ Err FileErr.Failed → IsTrue (is_to_fail self.old.bad_puts.items self.old.puts) }
        ensures counted { self.new.puts ≡ next_call self.old.puts }
        ensures reads_stay { self.new.reads ≡ self.old.reads }
        ensures bad_reads_stay { self.new.bad_reads ≡ self.old.bad_reads }
        ensures bad_puts_stay { self.new.bad_puts ≡ self.old.bad_puts }
    {
        let fails = is_to_fail(self.bad_puts.as_slice(), self.puts);
        self.puts = self.puts.saturating_add(1);
        if fails {
            note(&mut self.put_faults, name)?;
            return Err(FileErr::Failed);
        }
        put_first(&mut self.files, name, bytes)?;
        Ok(())
    }
}

/// Whether the call that comes after so many is one of those that are to fail.
fn is_to_fail(listed: &[u32], made: u64) -> bool
    ensures { result ≡ is_to_fail listed.now made }
{
    let number = made.saturating_add(1);
    listed.iter().any(|bad| u64::from(*bad) == number)
}

/// Adds a name to a list of faults.
fn note(faults: &mut Vec<String>, name: &str) -> Result<(), AllocError>
    ensures { names_in faults.new.items
        ≡ names_in faults.old.items ++ (if is_ok result then name.now ∷ [] else []) }
{
    let alloc = *faults.allocator();
    faults.push(String::from_str(alloc, name)?)?;
    Ok(())
}

/// The bytes of the first file of this name.
fn bytes_of<'a>(files: &'a [(String, Vec<u8>)], name: &str) -> Option<&'a [u8]>
    ensures { let held = file_named files.now name.now in
        MatchOption result (held ≡ None) (λ bytes. held ≡ Some bytes.now) }
{
    match place_of(files, name) {
        Some(at) => Some(files[at].1.as_slice()),
        None => None,
    }
}

/// Puts the bytes into the first file of this name, or into a new one behind all others.
fn put_first(files: &mut Vec<(String, Vec<u8>)>, name: &str, bytes: &[u8]) -> Result<(), AllocError>
    ensures replaced { OnOk result (file_named files.new.items name.now ≡ Some bytes.now) }
    ensures others { (other : List ℕ) → other ≢ name.now
        → file_named files.new.items other ≡ file_named files.old.items other }
    ensures err { OnErr result (files.new.items ≡ files.old.items) }
{
    let alloc = *files.allocator();
    let copy = Vec::from_slice(alloc, bytes)?;
    match place_of(files.as_slice(), name) {
        Some(at) => files[at].1 = copy,
        None => files.push((String::from_str(alloc, name)?, copy))?,
    }
    Ok(())
}

/// Where the first file of this name stands.
fn place_of(files: &[(String, Vec<u8>)], name: &str) -> Option<usize>
    ensures { result ≡ position (is_named name.now) files.now }
{
    files.iter().position(|file| file.0.as_str() == name)
}

/// A stream in memory.
#[derive(Debug, Drop)]
pub struct MemSink {
    /// The bytes taken so far.
    pub taken: Vec<u8>,
    bad: Vec<u32>,
    most: u32,
    calls: u64,
    faults: u64,
    ghost takes_some: { 0 < most },
}

impl MemSink {
    /// An empty stream that takes at most `most` bytes a call, with the numbers of the calls that are to fail, counted
    /// from 1.
    pub fn of(alloc: Global, bad: Vec<u32>, most: u32) -> MemSink
        requires { 1 ≤ most }
        ensures empty { result.taken.items ≡ [] }
        ensures bad { result.bad ≡ bad }
        ensures most { result.most ≡ most }
        ensures no_calls { result.calls ≡ 0 }
        ensures no_faults { ⟦<MemSink as Sink>⟧.faults result ≡ 0 }
    {
        MemSink {
            taken: Vec::new(alloc),
            bad,
            most,
            calls: 0,
            faults: 0,
        }
    }

    fn fail(&mut self) -> Result<usize, Failed>
        ensures failed { IsErr result }
        ensures rose { Rose self.old.faults self.new.faults }
        ensures not_lowered { self.old.faults ≤ self.new.faults }
        ensures taken { self.new.taken ≡ self.old.taken }
        ensures calls { self.new.calls ≡ self.old.calls }
        ensures bad { self.new.bad ≡ self.old.bad }
        ensures most { self.new.most ≡ self.old.most }
    {
        self.faults = self.faults.saturating_add(1);
        Err(Failed)
    }
}

impl Sink for MemSink {
    ghost taken = { λ s. Some s.taken.items };

    ghost faults = { λ s. s.faults };

    /// Takes all, or the first `most` bytes. Fails where the number of the call is listed, and where the bytes taken
    /// have no room and can't grow.
    fn write(&mut self, bytes: &[u8]) -> Result<usize, Failed>
        ensures within { IfOk result (λ count. count ≤ length bytes.now) }
        ensures some { IfOk result (λ count. 0 < length bytes.now → 0 < count) }
        ensures prefix { IfOk result (λ count. self.new.taken.items ≡ self.old.taken.items ++ take count bytes.now) }
        ensures failed { OnErr result (Rose self.old.faults self.new.faults) }
        ensures nothing { OnErr result (self.new.taken.items ≡ self.old.taken.items) }
        ensures unfailed { OnOk result (self.new.faults ≡ self.old.faults) }
        ensures not_lowered { self.old.faults ≤ self.new.faults }

        ensures listed { IsTrue (is_to_fail self.old.bad.items self.old.calls) → IsErr result }
        ensures only { OnErr result (IsTrue (is_to_fail self.old.bad.items self.old.calls)
            ⊎ (vec_capacity self.old.taken < vec_len self.old.taken + min (length bytes.now) self.old.most)) }
        ensures count { IfOk result (λ count. count ≡ min (length bytes.now) self.old.most) }
        ensures counted { self.new.calls ≡ next_call self.old.calls }
        ensures bad_stays { self.new.bad ≡ self.old.bad }
        ensures most_stays { self.new.most ≡ self.old.most }
    {
        let fails = is_to_fail(self.bad.as_slice(), self.calls);
        self.calls = self.calls.saturating_add(1);
        let count = bytes.len().min(self.most as usize);
        if fails || self.taken.extend_from_slice(&bytes[..count]).is_err() {
            return self.fail();
        }
        Ok(count)
    }
}
