//! Writing piece by piece.

ghost use Rattle.jvm_pieces.specs.Pieces.{Mention, draft, with_piece};
ghost use Rattle.jvm_pool.specs.Entries.{units};
ghost use Rattle.jvm_pool.specs.Mentions.{with_mention};
ghost use Rattle.std.specs.Prelude.{◌≡◌, ◌+◌, ◌<◌, ◌≤◌, ◌++◌, OnErr, OnOk, Err};

use jvm_pool::{Entry, Pool, PoolErr};
use kt_base::NoMemory;

/// Appends bytes that don't depend on the pool. An error leaves `into` as it was.
pub fn put_bytes(bytes: &[u8], into: &mut Vec<u8>) -> Result<(), NoMemory>
    ensures ok { OnOk result (into.new.items ≡ into.old.items ++ bytes.now) }
    ensures err { OnErr result (into.new.items ≡ into.old.items) }
{
    into.extend_from_slice(bytes)?;
    Ok(())
}

/// Appends the index of an entry in two bytes. The entry is added to the pool where it is absent.
///
/// `Full` comes exactly where the pool's count would pass 65,535. An error leaves the pool and `into` as they were.
pub fn put_mention(e: &Entry, pool: &mut Pool, into: &mut Vec<u8>) -> Result<(), PoolErr>
    ensures ok { OnOk result
        (draft pool.new into.new.items ≡ with_piece (Mention e.now) (draft pool.old into.old.items)) }
    ensures room { OnOk result (1 + units (with_mention e.now pool.old) ≤ 65535) }
    ensures full { result ≡ Err PoolErr.Full → 65535 < 1 + units (with_mention e.now pool.old) }
    ensures err { OnErr result ((pool.new ≡ pool.old) × (into.new.items ≡ into.old.items)) }
{
    into.reserve(2)?;
    let index = pool.add(e)?;
    into.extend_from_slice(&index.to_be_bytes())?;
    Ok(())
}
