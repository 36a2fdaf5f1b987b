//! Writing all of a piece.

ghost use Rattle.std.specs.Prelude.{◌≡◌, ◌≤◌, OnOk, OnErr};
ghost use Rattle.std.specs.Io.KnownBytes.{Appends};
ghost use Rattle.kt_outside.specs.Faults.{Rose};
ghost use Rattle.kt_outside.specs.Held.{AppendsPrefix};

use crate::outside::{Failed, Sink};

/// Writes all bytes, or answers that the stream failed when it had taken a prefix.
pub fn write_all<S: Sink>(sink: &mut S, bytes: &[u8]) -> Result<(), Failed>
    ensures all { OnOk result (Appends (S.taken sink.old) (S.taken sink.new) bytes.now) }
    ensures prefix { OnErr result (AppendsPrefix (S.taken sink.old) (S.taken sink.new) bytes.now) }
    ensures failed { OnErr result (Rose (S.faults sink.old) (S.faults sink.new)) }
    ensures unfailed { OnOk result (S.faults sink.new ≡ S.faults sink.old) }
    ensures not_lowered { S.faults sink.old ≤ S.faults sink.new }
{
    let mut rest = bytes;
    while !rest.is_empty() {
        let count = sink.write(rest)?;
        rest = &rest[count..];
    }
    Ok(())
}
