//! A read that appends.

use kt_outside::{FileErr, Files};
use std::alloc::Global;
use std::process::Abort;
use std::test::Fail;

/// Checks a read that appends to one byte.
pub fn reads(
    rt: &impl Abort,
    alloc: Global,
    files: &mut impl Files,
    name: &str,
    want: Result<(), FileErr>,
    bytes: &[u8],
) -> Result<(), Fail> {
    let mut into = Vec::from_slice(alloc, b"=")?;
    assert_eq!(rt; files.read(name, &mut into), want, "of {name}");
    let mut whole = Vec::from_slice(alloc, b"=")?;
    whole.extend_from_slice(bytes)?;
    assert_eq!(rt; into, whole, "of {name}");
    Ok(())
}
