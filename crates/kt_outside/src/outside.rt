//! What the program asks of the outside.

ghost use Rattle.std.specs.Prelude.{◌≡◌, ◌≢◌, ℕ, ◌<◌, ◌≤◌, List, ◌++◌, Option, length, take};
ghost use Rattle.std.specs.Prelude.{IfOk, OnOk, OnErr, IsErr};
ghost use Rattle.std.specs.Io.KnownBytes.{Appends, Keeps};
ghost use Rattle.kt_outside.specs.Held.{Contents, file_in, Holds, Lacks, Replaces};
ghost use Rattle.kt_outside.specs.Faults.{Rose, Adds};

use kt_base::NoMemory;
use std::alloc::{AllocError, AllocFailed};
use thiserror::Error;

/// A stream took nothing, since it failed.
#[derive(Clone, Copy, Debug, PartialEq, Eq, Hash, Error)]
#[error("the stream failed")]
pub struct Failed;

/// Why a file was not read or not put.
#[derive(Clone, Copy, Debug, PartialEq, Eq, Hash, Error)]
pub enum FileErr {
    /// The outside failed at this name.
    #[error("the file can't be reached")]
    Failed,
    #[error("out of memory")]
    NoMemory,
}

impl From<AllocError> for FileErr {
    ghost use Rattle.kt_outside.specs.declared.outside.FileErr.TheVariants.{NoMemory};

    ghost from_gives = { λ _ e. e ≡ NoMemory };

    fn from(_: AllocError) -> FileErr {
        FileErr::NoMemory
    }
}

/// Files under names.
pub trait Files {
    /// What each name holds, where it is told: in memory only.
    ghost held: { Self → Contents };

    /// The names at which a read failed, in order. The list only grows.
    ghost read_faults: { Self → List (List ℕ) };

    /// The names at which a put failed, in order. The list only grows.
    ghost put_faults: { Self → List (List ℕ) };

    /// Appends the whole file of this name, whether or not it is told what files hold. An absent file is a fault.
    fn read(&mut self, name: &str, into: &mut Vec<u8>) -> Result<(), FileErr>
        ensures whole { (bytes : List ℕ) → Holds (held self.old) name.now bytes
            → OnOk result (into.new.items ≡ into.old.items ++ bytes) }
        ensures absent { Lacks (held self.old) name.now → IsErr result }
        ensures appends { OnOk result ((more : List ℕ) × (into.new.items ≡ into.old.items ++ more)) }
        ensures unread { OnErr result (into.new.items ≡ into.old.items) }

        ensures failed { result ≡ Err FileErr.Failed → Adds name.now (read_faults self.old) (read_faults self.new) }
        ensures unfailed { result ≢ Err FileErr.Failed → read_faults self.new ≡ read_faults self.old }

        ensures files_stay { held self.new ≡ held self.old }
        ensures put_faults_stay { put_faults self.new ≡ put_faults self.old };

    /// Puts the bytes under this name, in place of what was there. After a fault this one file may hold anything.
    fn put(&mut self, name: &str, bytes: &[u8]) -> Result<(), FileErr>
        ensures replaced { OnOk result (Replaces (held self.new) name.now bytes.now) }
        ensures others_stay { (other : List ℕ) → other ≢ name.now
            → file_in (held self.new) other ≡ file_in (held self.old) other }

        ensures failed { result ≡ Err FileErr.Failed → Adds name.now (put_faults self.old) (put_faults self.new) }
        ensures unfailed { result ≢ Err FileErr.Failed → put_faults self.new ≡ put_faults self.old }
        ensures no_memory_stays { result ≡ Err FileErr.NoMemory → held self.new ≡ held self.old }

        ensures read_faults_stay { read_faults self.new ≡ read_faults self.old };
}

/// A stream that takes bytes.
pub trait Sink {
    /// The bytes taken so far, where they are told: in memory only.
    ghost taken: { Self → Option (List ℕ) };

    /// How often the stream failed. No call lowers the count.
    ghost faults: { Self → ℕ };

    /// Takes bytes from the front, at least one where there is one, and answers how many.
    fn write(&mut self, bytes: &[u8]) -> Result<usize, Failed>
        ensures within { IfOk result (λ count. count ≤ length bytes.now) }
        ensures some { IfOk result (λ count. 0 < length bytes.now → 0 < count) }
        ensures prefix { IfOk result (λ count. Appends (taken self.old) (taken self.new) (take count bytes.now)) }
        ensures failed { OnErr result (Rose (faults self.old) (faults self.new)) }
        ensures nothing { OnErr result (Keeps (taken self.old) (taken self.new)) }
        ensures unfailed { OnOk result (faults self.new ≡ faults self.old) }
        ensures not_lowered { faults self.old ≤ faults self.new };
}
