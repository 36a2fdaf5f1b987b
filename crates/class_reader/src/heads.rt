//! The head of a class file (JVMS SE 8 §4.1).

ghost use Rattle.jvm_class_formats.specs.Formats.{the};
ghost use Rattle.jvm_class_formats.specs.Reads.{Reads};
ghost use Rattle.jvm_class_grammar.specs.File as file;
ghost use Rattle.jvm_class_types.specs.Constants as constants;
ghost use Rattle.std.specs.Int.{w32};
ghost use Rattle.std.specs.Prelude.{◌≡◌};

use jvm_class_formats::numbers::{only_half, word};
use jvm_class_formats::{Place, ReadErr};
use jvm_class_types::constants::{MAGIC, MAJOR_VERSION, MINOR_VERSION};

/// The place behind the magic number.
fn behind_magic(place: Place<'_>) -> Result<Place<'_>, ReadErr>
    ensures { Reads (λ s. (constants.magic, s)) result ((the w32 constants.magic).read place.entry) }
{
    let at = place.offset();
    let (magic, rest) = word(place)?;
    if magic == MAGIC {
        Ok(rest)
    } else {
        Err(ReadErr::BadBytes { offset: at })
    }
}

/// The place behind the magic number and the version.
pub(crate) fn behind_head(place: Place<'_>) -> Result<Place<'_>, ReadErr>
    ensures { Reads (λ s. ((constants.magic, (constants.minor_version, constants.major_version)), s)) result
        (file.head.read place.entry) }
{
    let place = behind_magic(place)?;
    let (_, place) = only_half(MINOR_VERSION, place)?;
    let (_, place) = only_half(MAJOR_VERSION, place)?;
    Ok(place)
}
