//! The outside as the system has it: what no clause says of real files and streams.

use crate::reading::reads;
use kt_outside::{Failed, FileErr, Files, RealFiles, RealSink, Sink, write_all};
use std::alloc::Global;
use std::fs;
use std::test::Fail;

/// More bytes than one read of the system asks for.
fn long_file(alloc: Global) -> Result<Vec<u8>, Fail> {
    let mut bytes = Vec::new(alloc);
    for _ in 0..40 {
        for byte in 0..=250u8 {
            bytes.push(byte)?;
        }
    }
    Ok(bytes)
}

#[test]
fn files_of_the_system(rt: HostRuntime) -> Result<(), Fail> {
    let name = "kt_outside_test.bytes";
    let long = long_file(rt.alloc())?;
    let mut files = RealFiles::new(rt.clone()?, rt.alloc());
    assert_eq!(rt; files.put(name, long.as_slice()), Ok(()));
    reads(&rt, rt.alloc(), &mut files, name, Ok(()), long.as_slice())?;
    assert_eq!(rt; files.put(name, b"\0\xFFshort"), Ok(()));
    reads(&rt, rt.alloc(), &mut files, name, Ok(()), b"\0\xFFshort")?;
    fs::remove_file(&rt, name)?;
    reads(&rt, rt.alloc(), &mut files, name, Err(FileErr::Failed), b"")?;
    assert_eq!(rt; files.put("kt_outside_absent/a", b""), Err(FileErr::Failed));
    Ok(())
}

#[test]
fn a_stream_of_the_system(rt: HostRuntime) -> Result<(), Fail> {
    let mut taken = Vec::new(rt.alloc());
    let mut sink = RealSink::new(&mut taken);
    assert_eq!(rt; sink.write(b""), Ok(0));
    assert_eq!(rt; write_all(&mut sink, b"hello"), Ok(()));
    assert_eq!(rt; taken.as_slice(), b"hello".as_slice());
    assert_eq!(rt; RealSink::new(rt.stdout()).write(b"taken\n"), Ok(6));
    Ok(())
}

#[test]
fn a_full_stream_fails(rt: HostRuntime) {
    let mut room = [0; 3];
    let mut sink = RealSink::new(room.as_mut_slice());
    assert_eq!(rt; write_all(&mut sink, b"hello"), Err(Failed));
    assert_eq!(rt; sink.write(b""), Ok(0));
    assert_eq!(rt; room, *b"hel");
}
