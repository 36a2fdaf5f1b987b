//! Access flags (JVMS SE 8 §4.1, §4.5, §4.6). Each is refused at its start exactly where the number stands for no flags
//! of the profile, and at the file's length where that ends within it.

ghost use Rattle.jvm_class_formats.specs.Reads.{Reads};
ghost use Rattle.jvm_class_grammar.specs.Coded.{coded};
ghost use Rattle.jvm_class_types.specs.Flags as flags;
ghost use Rattle.jvm_class_types.specs.Flags.{class_flags_of, field_flags_of, method_flags_of};
ghost use Rattle.std.specs.Int.{w16};
ghost use Rattle.std.specs.Prelude.{◌≡◌};

use jvm_class_formats::numbers::half;
use jvm_class_formats::{Place, ReadErr};
use jvm_class_types::{ClassFlags, FieldFlags, MethodFlags};

/// The flags of a class.
pub fn class_flags(place: Place<'_>) -> Result<(ClassFlags, Place<'_>), ReadErr>
    ensures { Reads (λ x. (x.0, x.1)) result ((coded w16 flags.class_flags class_flags_of).read place.entry) }
{
    let at = place.offset();
    let (number, rest) = half(place)?;
    match ClassFlags::of_number(number) {
        Some(flags) => Ok((flags, rest)),
        None => Err(ReadErr::BadBytes { offset: at }),
    }
}

/// The flags of a field.
pub fn field_flags(place: Place<'_>) -> Result<(FieldFlags, Place<'_>), ReadErr>
    ensures { Reads (λ x. (x.0, x.1)) result ((coded w16 flags.field_flags field_flags_of).read place.entry) }
{
    let at = place.offset();
    let (number, rest) = half(place)?;
    match FieldFlags::of_number(number) {
        Some(flags) => Ok((flags, rest)),
        None => Err(ReadErr::BadBytes { offset: at }),
    }
}

/// The flags of a method.
pub fn method_flags(place: Place<'_>) -> Result<(MethodFlags, Place<'_>), ReadErr>
    ensures { Reads (λ x. (x.0, x.1)) result ((coded w16 flags.method_flags method_flags_of).read place.entry) }
{
    let at = place.offset();
    let (number, rest) = half(place)?;
    match MethodFlags::of_number(number) {
        Some(flags) => Ok((flags, rest)),
        None => Err(ReadErr::BadBytes { offset: at }),
    }
}
