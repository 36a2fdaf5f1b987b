//! What comes of bytes that are read as a class file, and bytes with a slip in them.

use class_reader::read;
use class_writer::write;
use jvm_class::well_formed;
use jvm_class_formats::ReadErr;
use jvm_class_types::ClassFile;
use std::alloc::Global;
use std::test::Fail;

/// Fails where a class isn't well formed, or these bytes aren't its class file.
fn is_written_so(alloc: Global, class: &ClassFile, bytes: &[u8]) -> Result<(), Fail> {
    if well_formed(class) {
        let written = write(alloc, class)?;
        if written.as_slice() == bytes {
            Ok(())
        } else {
            Err(Fail::from("written otherwise"))
        }
    } else {
        Err(Fail::from("not well formed"))
    }
}

/// The offset at which bytes are refused: `None` where they are read as a class that is written as the same bytes.
pub(crate) fn refusal(alloc: Global, bytes: &[u8]) -> Result<Option<u64>, Fail> {
    match read(alloc, bytes) {
        Err(ReadErr::BadBytes { offset }) => Ok(Some(offset)),
        Err(ReadErr::NoMemory) => Err(Fail::from("out of memory")),
        Ok(class) => {
            is_written_so(alloc, &class, bytes)?;
            Ok(None)
        }
    }
}

/// The bytes with a slip at an offset in place of those that stand there.
pub(crate) fn altered(
    alloc: Global,
    bytes: &[u8],
    at: usize,
    slip: &[u8],
) -> Result<Vec<u8>, Fail> {
    let mut other = Vec::new(alloc);
    for (index, byte) in bytes.iter().enumerate() {
        if index < at {
            other.push(*byte)?;
        } else {
            match slip.get(index - at) {
                Some(slipped) => other.push(*slipped)?,
                None => other.push(*byte)?,
            }
        }
    }
    Ok(other)
}
