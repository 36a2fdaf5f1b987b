//! The entries of these classes.

ghost use Rattle.jvm_pool.specs.declared.entries.Entry.TheVariants as entry;
ghost use Rattle.std.specs.Prelude.{◌≡◌, ◌≤◌, ◌∷◌, length, IfOk};
ghost use Rattle.jvm_pool.specs.Entries.{behind};
ghost use Rattle.jvm_class_first.specs.ClassFile.{AreOfPlain};
ghost use Rattle.std.specs.Str.{IsAscii};

use jvm_pool::Entry;
use kt_base::{Name, NoMemory, Text16};
use std::alloc::Global;

/// A text of ASCII bytes.
pub fn text(alloc: Global, bytes: &[u8]) -> Result<Entry, NoMemory>
    ensures { IfOk result (λ e. e ≡ entry.Utf8 bytes.now) }
{
    let mut units = Vec::with_capacity(alloc, bytes.len())?;
    for byte in bytes {
        units.push(u16::from(*byte))?;
    }
    Ok(Entry::Utf8(Text16::from_units(units)))
}

/// A text of few ASCII bytes.
#[tactic(auto, using(crate::proofs::Short::text_is_short))]
pub fn short_text(alloc: Global, bytes: &[u8]) -> Result<Entry, NoMemory>
    requires { length bytes.now ≤ 255 }
    ensures kinds { IfOk result (λ e. AreOfPlain (e ∷ behind e)) }
    ensures value { IfOk result (λ e. e ≡ entry.Utf8 bytes.now) }
{
    text(alloc, bytes)
}

/// A class by its name.
#[tactic(auto, using(crate::proofs::Short::text_is_short))]
pub fn class(alloc: Global, name: &[u8]) -> Result<Entry, NoMemory>
    requires ascii { IsAscii name.now }
    requires short { length name.now ≤ 255 }
    ensures kinds { IfOk result (λ e. AreOfPlain (e ∷ behind e)) }
    ensures value { IfOk result (λ e. e ≡ entry.Class name.now) }
{
    Ok(Entry::Class(Name::of(alloc, name)?))
}

/// A method by its class, its name and its descriptor.
#[tactic(auto, using(crate::proofs::Short::text_is_short))]
pub fn method(
    alloc: Global,
    class: &[u8],
    name: &[u8],
    descriptor: &[u8],
) -> Result<Entry, NoMemory>
    requires class_in { IsAscii class.now }
    requires name_in { IsAscii name.now }
    requires descriptor_in { IsAscii descriptor.now }
    requires class_short { length class.now ≤ 255 }
    requires name_short { length name.now ≤ 255 }
    requires descriptor_short { length descriptor.now ≤ 255 }
    ensures kinds { IfOk result (λ e. AreOfPlain (e ∷ behind e)) }
    ensures value { IfOk result (λ e. e ≡ entry.Method class.now name.now descriptor.now) }
{
    let class = Name::of(alloc, class)?;
    let name = Name::of(alloc, name)?;
    let descriptor = Name::of(alloc, descriptor)?;
    Ok(Entry::Method(class, name, descriptor))
}
