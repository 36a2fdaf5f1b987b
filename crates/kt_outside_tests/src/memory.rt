//! The outside in memory: each call on its happy path, and one that fails in mid-stream.

use crate::reading::reads;
use kt_outside::{Failed, FileErr, Files, MemFiles, MemSink, write_all};
use std::alloc::Global;
use std::test::Fail;

/// One file. The second read and the second put fail.
fn one_file(alloc: Global) -> Result<MemFiles, Fail> {
    let name = String::from_str(alloc, "main.kt")?;
    let bytes = Vec::from_slice(alloc, b"\0\xFFone\n")?;
    let files = vec![in alloc; (name, bytes)]?;
    let bad_reads = vec![in alloc; 2]?;
    let bad_puts = vec![in alloc; 2]?;
    Ok(MemFiles::of(alloc, files, bad_reads, bad_puts))
}

/// Puts in order, what each answers, and what a read of that name gives then.
fn puts() -> [(
    &'static str,
    Result<(), FileErr>,
    Result<(), FileErr>,
    &'static [u8],
); 4] {
    [
        ("main.kt", Ok(()), Ok(()), b"two"),
        ("main.kt", Err(FileErr::Failed), Err(FileErr::Failed), b""),
        ("new", Ok(()), Ok(()), b"four"),
        ("empty", Ok(()), Ok(()), b""),
    ]
}

#[test]
fn files_in_memory(rt: HostRuntime) -> Result<(), Fail> {
    let mut files = one_file(rt.alloc())?;
    for (name, put, read, bytes) in puts() {
        assert_eq!(rt; files.put(name, bytes), put, "of {name}");
        reads(&rt, rt.alloc(), &mut files, name, read, bytes)?;
    }
    reads(&rt, rt.alloc(), &mut files, "main.kt", Ok(()), b"two")?;
    assert_eq!(rt; files.files.len(), 3);
    Ok(())
}

/// How many bytes a call takes, the call that fails, and what is taken of five bytes.
fn pieces() -> [(u32, u32, Result<(), Failed>, &'static [u8]); 5] {
    [
        (1, 6, Ok(()), b"12345"),
        (7, 2, Ok(()), b"12345"),
        (3, 2, Err(Failed), b"123"),
        (1, 5, Err(Failed), b"1234"),
        (7, 1, Err(Failed), b""),
    ]
}

#[test]
fn all_is_written_or_a_prefix(rt: HostRuntime) -> Result<(), Fail> {
    for (most, bad, want, taken) in pieces() {
        if most == 0 {
            return Err(Fail::from("takes no byte"));
        }
        let mut sink = MemSink::of(rt.alloc(), vec![in rt.alloc(); bad]?, most);
        assert_eq!(rt; write_all(&mut sink, b""), Ok(()));
        assert_eq!(rt; write_all(&mut sink, b"12345"), want, "of {most} and {bad}");
        assert_eq!(rt; sink.taken.as_slice(), taken, "of {most} and {bad}");
    }
    Ok(())
}
