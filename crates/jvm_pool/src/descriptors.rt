//! Descriptors of fields and methods (JVMS SE 8 §4.3.2, §4.3.3), for the types that the language has.

ghost use Rattle.std.specs.Prelude.{◌≡◌, ◌++◌, length, IfOk, OnOk, OnErr};
ghost use Rattle.std.specs.Str.{IsAscii};

use crate::spelling;
use kt_base::{Name, NoMemory};
use std::alloc::Global;

/// The type of a field, a parameter or a result.
#[derive(Clone, Debug, PartialEq, Eq, Hash, Drop)]
pub enum FieldType {
    /// `I`
    Int,
    /// `J`
    Long,
    /// `Z`
    Bool,
    /// `C`
    Char,
    /// `L`, the internal form of the class's name, `;`
    Class(Name),
    /// `[I`
    IntArray,
    /// `[Ljava/lang/Object;`
    ObjectArray,
}

/// The type of a field, or the parameters of a method and its result.
#[derive(Clone, Debug, PartialEq, Eq, Hash, Drop)]
pub enum Descriptor {
    Field(FieldType),
    /// No result stands for `V`.
    Method(Vec<FieldType>, Option<FieldType>),
}

impl Descriptor {
    ghost use Rattle.jvm_pool.specs.Descriptors.{spelled};

    /// Appends the spelling. An error leaves `into` as it was.
    pub fn put(&self, into: &mut Vec<u8>) -> Result<(), NoMemory>
        ensures ok { OnOk result (into.new.items ≡ into.old.items ++ spelled self.now) }
        ensures err { OnErr result (into.new.items ≡ into.old.items) }
        ensures ascii { OnOk result (IsAscii (spelled self.now)) }
    {
        let length = into.len();
        let outcome = spelling::put_descriptor(self, into);
        if outcome.is_err() {
            into.truncate(length);
        }
        outcome
    }

    /// The spelling.
    pub fn spell(&self, alloc: Global) -> Result<Name, NoMemory>
        ensures { IfOk result (λ name. name ≡ spelled self.now) }
    {
        let mut bytes = Vec::new(alloc);
        self.put(&mut bytes)?;
        Name::of(alloc, bytes.as_slice())
    }
}
