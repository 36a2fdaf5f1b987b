//! The entries of a constant pool (JVMS SE 8 §4.4), which name their parts by content.

ghost use Rattle.jvm_pool.specs.Entries.{size, behind};
ghost use Rattle.std.specs.Prelude.{◌≡◌, ◌++◌, ◌∷◌, [], IfOk, OnOk};
ghost use Rattle.jvm_pool.specs.declared.entries.Entry.TheVariants as entry;

use kt_base::{Name, NoMemory, Text16};
use std::alloc::{AllocError, Global};

/// An entry of a constant pool (JVMS SE 8 §4.4).
///
/// It names its parts by content, and not by their indices. A class member has a class, a name and a descriptor.
#[derive(Debug, PartialEq, Eq, Hash, Drop)]
pub enum Entry {
    /// A text (§4.4.7).
    Utf8(Text16),
    /// An `int` (§4.4.4).
    Int(i32),
    /// A `long`, which takes two indices (§4.4.5).
    Long(i64),
    /// A class, by the internal form of its name (§4.4.1).
    Class(Name),
    /// A constant of type `String` (§4.4.3).
    Text(Text16),
    /// A field (§4.4.2).
    Field(Name, Name, Name),
    /// A method of a class (§4.4.2).
    Method(Name, Name, Name),
    /// A method of an interface (§4.4.2).
    InterfaceMethod(Name, Name, Name),
    /// A name and a descriptor (§4.4.6).
    NameAndType(Name, Name),
}

impl Entry {
    /// How many indices the entry takes: 2 for a `long`, else 1.
    pub fn size(&self) -> u32
        ensures { result ≡ size self.now }
    {
        match self {
            Entry::Long(_) => 2,
            _ => 1,
        }
    }

    /// The entries that this one is made of, in order: each part, and behind it the parts of that.
    pub(crate) fn parts(&self, alloc: Global) -> Result<Vec<Entry>, NoMemory>
        ensures { IfOk result (λ parts. parts.items ≡ behind self.now) }
    {
        let mut parts = Vec::new(alloc);
        match self {
            Entry::Utf8(_) | Entry::Int(_) | Entry::Long(_) => {}
            Entry::Class(name) => push_name(&mut parts, alloc, name)?,
            Entry::Text(text) => parts.push(Entry::Utf8(text.clone()?))?,
            Entry::NameAndType(name, descriptor) => {
                push_name(&mut parts, alloc, name)?;
                push_name(&mut parts, alloc, descriptor)?;
            }
            Entry::Field(class, name, descriptor)
            | Entry::Method(class, name, descriptor)
            | Entry::InterfaceMethod(class, name, descriptor) => {
                push_class(&mut parts, alloc, class)?;
                push_pair(&mut parts, alloc, name, descriptor)?;
            }
        }
        Ok(parts)
    }
}

impl Clone for Entry {
    ghost is_clone = { λ e copy. copy ≡ e };

    fn clone(&self) -> Result<Entry, AllocError> {
        Ok(match self {
            Entry::Utf8(text) => Entry::Utf8(text.clone()?),
            Entry::Int(number) => Entry::Int(*number),
            Entry::Long(number) => Entry::Long(*number),
            Entry::Class(name) => Entry::Class(name.clone()?),
            Entry::Text(text) => Entry::Text(text.clone()?),
            Entry::Field(class, name, descriptor) => {
                Entry::Field(class.clone()?, name.clone()?, descriptor.clone()?)
            }
            Entry::Method(class, name, descriptor) => {
                Entry::Method(class.clone()?, name.clone()?, descriptor.clone()?)
            }
            Entry::InterfaceMethod(class, name, descriptor) => {
                Entry::InterfaceMethod(class.clone()?, name.clone()?, descriptor.clone()?)
            }
            Entry::NameAndType(name, descriptor) => {
                Entry::NameAndType(name.clone()?, descriptor.clone()?)
            }
        })
    }
}

/// Appends the text of a name.
fn push_name(parts: &mut Vec<Entry>, alloc: Global, name: &Name) -> Result<(), NoMemory>
    ensures { OnOk result (parts.new.items ≡ parts.old.items ++ entry.Utf8 name.now ∷ []) }
{
    parts.push(Entry::Utf8(text_of(alloc, name.as_bytes())?))?;
    Ok(())
}

/// Appends a class and its name.
fn push_class(parts: &mut Vec<Entry>, alloc: Global, name: &Name) -> Result<(), NoMemory>
    ensures { OnOk result (parts.new.items ≡ parts.old.items ++ entry.Class name.now ∷ entry.Utf8 name.now ∷ []) }
{
    parts.push(Entry::Class(name.clone()?))?;
    push_name(parts, alloc, name)
}

/// Appends a name and a descriptor, and both as texts.
fn push_pair(
    parts: &mut Vec<Entry>,
    alloc: Global,
    name: &Name,
    descriptor: &Name,
) -> Result<(), NoMemory>
    ensures { OnOk result (parts.new.items ≡ parts.old.items ++ entry.NameAndType name.now descriptor.now
        ∷ entry.Utf8 name.now ∷ entry.Utf8 descriptor.now ∷ []) }
{
    parts.push(Entry::NameAndType(name.clone()?, descriptor.clone()?))?;
    push_name(parts, alloc, name)?;
    push_name(parts, alloc, descriptor)
}

/// The text of these bytes, each of which is a unit of its own.
fn text_of(alloc: Global, bytes: &[u8]) -> Result<Text16, NoMemory>
    ensures { IfOk result (λ text. text ≡ bytes.now) }
{
    let mut units = Vec::with_capacity(alloc, bytes.len())?;
    for byte in bytes {
        units.push(u16::from(*byte))?;
    }
    Ok(Text16::from_units(units))
}
