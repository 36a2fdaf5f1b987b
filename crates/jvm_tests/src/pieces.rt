//! Bytes and mentions behind a pool.

use jvm_pieces::{put_bytes, put_mention};
use jvm_pool::{Entry, Pool};
use std::test::Fail;

#[test]
fn bytes_and_mentions(rt: HostRuntime) -> Result<(), Fail> {
    let mut pool = Pool::new(rt.alloc());
    let mut into = Vec::new(rt.alloc());
    put_bytes(&[0, 9], &mut into)?;
    put_mention(&Entry::Long(5), &mut pool, &mut into)?;
    put_mention(&Entry::Int(5), &mut pool, &mut into)?;
    put_mention(&Entry::Long(5), &mut pool, &mut into)?;
    assert_eq!(rt; into.as_slice(), [0, 9, 0, 1, 0, 3, 0, 1].as_slice());
    Ok(())
}
