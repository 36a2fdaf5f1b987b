//! Entries as they stand in a file.

ghost use Rattle.jvm_pool_bytes.specs.Raws.{raw_size, raw_tag};
ghost use Rattle.std.specs.Prelude.{◌≡◌};

use kt_base::Text16;

/// An entry of a constant pool as it stands in the file: with the indices of its parts (JVMS SE 8 §4.4).
#[derive(Debug, PartialEq, Eq, Hash, Drop)]
pub enum RawEntry {
    /// A text.
    Utf8(Text16),
    /// An `int`.
    Int(i32),
    /// A `long`.
    Long(i64),
    /// A class, by the index of its name.
    Class(u16),
    /// A constant of type `String`, by the index of its text.
    Text(u16),
    /// A field, by the indices of its class and of its name with its descriptor.
    Field(u16, u16),
    /// A method of a class, likewise.
    Method(u16, u16),
    /// A method of an interface, likewise.
    InterfaceMethod(u16, u16),
    /// A name and a descriptor, by their indices.
    NameAndType(u16, u16),
}

impl RawEntry {
    /// How many indices the entry takes: 2 for a `long`, else 1.
    pub fn size(&self) -> u32
        ensures { result ≡ raw_size self.now }
    {
        match self {
            RawEntry::Long(_) => 2,
            _ => 1,
        }
    }
}
