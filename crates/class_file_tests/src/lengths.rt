//! Code of the least and the greatest length, and of lengths that no code has (JVMS SE 8 §4.7.3).

use crate::small::members;
use crate::telling::refusal;
use std::alloc::Global;
use std::test::Fail;

/// The second small class, with code of this length in its last method: *iconst_0* up to the last instruction, which is
/// *return*.
fn with_code(alloc: Global, length: u32) -> Result<Vec<u8>, Fail> {
    let front = members().get(..91).unwrap_or(&[]);
    let mut bytes = Vec::from_slice(alloc, front)?;
    bytes.extend_from_slice(&length.wrapping_add(12).to_be_bytes())?;
    bytes.extend_from_slice(&[0, 1, 0, 0])?;
    bytes.extend_from_slice(&length.to_be_bytes())?;
    for _i in 1..length {
        bytes.push(0x03)?;
    }
    bytes.extend_from_slice(&[0xB1, 0, 0, 0, 0, 0, 0])?;
    Ok(bytes)
}

/// Lengths, and the offset at which that is refused.
fn lengths() -> [(u32, Option<u64>); 4] {
    [
        (1, None),
        (65_535, None),
        (65_536, Some(99)),
        (65_537, Some(99)),
    ]
}

#[test]
fn lengths_of_code(rt: HostRuntime) -> Result<(), Fail> {
    for (length, offset) in lengths() {
        let bytes = with_code(rt.alloc(), length)?;
        assert_eq!(rt; refusal(rt.alloc(), &bytes)?, offset, "of {length}");
    }
    Ok(())
}
