//! A place in a file that is read.

ghost use Rattle.jvm_class_formats.specs.Formats.{here, spot};
ghost use Rattle.std.specs.Prelude.{◌≡◌, ◌≤◌, ◌<◌, ◌^◌, length, drop};

use std::marker::Model;

/// A place in a file that is read: the file's length, the counter of first mentions, and the bytes that are left.
#[derive(Drop)]
pub struct Place<'a> {
    pub total: usize,
    pub counter: u32,
    pub bytes: &'a [u8],
}

impl<'a> Model for Place<'a> {
    ghost use Rattle.std.specs.Prelude.{length, ◌≤◌, ◌<◌, ◌^◌};
    ghost use Rattle.jvm_class_formats.specs.Formats.{Spot, spot};

    ghost Value = { Spot };

    ghost view = { λ p. spot p.total p.counter p.bytes.now };

    ghost invariant = { λ p. (length p.bytes.now ≤ p.total) × (p.total < 2 ^ 63) };
}

impl<'a> Place<'a> {
    /// The start of a file.
    pub fn start(bytes: &'a [u8]) -> Place<'a>
        requires { length bytes.now < 2 ^ 63 }
        ensures { result ≡ spot (length bytes.now) 1 bytes.now }
    {
        Place {
            total: bytes.len(),
            counter: 1,
            bytes,
        }
    }

    /// The offset in the file.
    pub fn offset(&self) -> u64
        ensures { result ≡ here self.now }
    {
        (self.total - self.bytes.len()) as u64
    }
}
