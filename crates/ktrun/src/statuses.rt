//! The statuses of the program, and the lines that they write.

ghost use Rattle.std.specs.Prelude.{◌≤◌, OnOk, OnErr};
ghost use Rattle.std.specs.Io.KnownBytes.{Appends};
ghost use Rattle.kt_base.specs.Report.{line};
ghost use Rattle.kt_outside.specs.Faults.{Rose};
ghost use Rattle.ktrun.specs.Statuses.{status_line};

use kt_outside::{Failed, Sink, write_all};

/// All was written.
pub const DONE: u8 = 0;

/// The text is refused.
pub const REFUSED: u8 = 1;

/// The words ask for nothing that the program does.
pub const USAGE: u8 = 2;

/// Memory was refused.
pub const NO_MEMORY: u8 = 6;

/// A file can't be read.
pub const CANNOT_READ: u8 = 7;

/// The output can't be written.
pub const CANNOT_WRITE: u8 = 8;

/// The text is a file of the language, and isn't in the part of it that is run today.
pub const NOT_BUILT: u8 = 11;

/// Writes the line of a status, or answers that the stream failed when it had taken a prefix. What is told is the refusal
/// of a text, or the name of a file that can't be read.
pub fn write_line<E: Sink>(err: &mut E, status: u8, told: &str) -> Result<(), Failed>
    ensures all { OnOk result (Appends (E.taken err.old) (E.taken err.new) (status_line status told.now)) }
    ensures failed { OnErr result (Rose (E.faults err.old) (E.faults err.new)) }
{
    match status {
        REFUSED => write_text_line(err, told),
        USAGE => write_all(err, b"ktrun: usage\n"),
        NO_MEMORY => write_all(err, b"ktrun: out of memory\n"),
        CANNOT_READ => {
            write_all(err, b"ktrun: cannot read ")?;
            write_text_line(err, told)
        }
        CANNOT_WRITE => write_all(err, b"ktrun: cannot write\n"),
        NOT_BUILT => write_all(err, b"ktrun: not built yet\n"),
        _ => Ok(()),
    }
}

/// Writes a text and the end of its line.
fn write_text_line<E: Sink>(err: &mut E, text: &str) -> Result<(), Failed>
    ensures all { OnOk result (Appends (E.taken err.old) (E.taken err.new) (line text.now)) }
    ensures failed { OnErr result (Rose (E.faults err.old) (E.faults err.new)) }
    ensures not_lowered { E.faults err.old ≤ E.faults err.new }
{
    write_all(err, text.as_bytes())?;
    write_all(err, b"\n")
}
