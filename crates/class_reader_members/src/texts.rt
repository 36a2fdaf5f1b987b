//! Names and descriptors that are mentioned (JVMS SE 8 §4.2, §4.3).

ghost use Rattle.class_reader_members.specs.TextKinds.{text_inside, text_keeps};
ghost use Rattle.jvm_class_formats.specs.Formats.{mention, mentioned, saying};
ghost use Rattle.jvm_class_formats.specs.Reads.{Reads};
ghost use Rattle.jvm_pool.specs.declared.entries.Entry.TheVariants as entry;
ghost use Rattle.std.specs.Prelude.{◌≡◌, true, IfOk};

use jvm_class_formats::numbers::half;
use jvm_class_formats::{Place, ReadErr};
use jvm_mentions::behind_mention;
use jvm_pool::{Entry, Pool};
use jvm_pool_reader::texts::{Kind, is_name, is_of, name_of};
use kt_base::{Name, NoMemory};
use std::alloc::Global;

/// What a text is at its place.
#[derive(Clone, Copy, Debug, PartialEq, Eq)]
pub enum TextKind {
    /// A name: not empty, and ASCII.
    Name,
    /// The descriptor of a field.
    FieldDescriptor,
    /// The descriptor of a method.
    MethodDescriptor,
}

/// Whether a text is of the kind.
fn keeps(kind: TextKind, alloc: Global, units: &[u16]) -> Result<bool, NoMemory>
    ensures { IfOk result (λ is. is ≡ text_keeps kind units.now) }
{
    match kind {
        TextKind::Name => Ok(is_name(units)),
        TextKind::FieldDescriptor => is_of(Kind::Field, alloc, units),
        TextKind::MethodDescriptor => is_of(Kind::Method, alloc, units),
    }
}

/// The text that an entry is, whose mention began at `at`; `rest` is the place behind its index.
#[tactic(auto, using(crate::proofs::TextsAscii::keeps_ascii))]
fn text_of<'a>(
    kind: TextKind,
    pool: &Pool,
    alloc: Global,
    e: &Entry,
    at: u64,
    rest: Place<'a>,
) -> Result<(Name, Place<'a>), ReadErr>
    ensures read { Reads (λ x. (x.0, x.1)) result
        (mentioned pool.now rest.entry at rest.entry.counter (saying e.now (text_inside kind e.now))) }
    ensures keeps { IfOk result (λ x. text_keeps kind x.0 ≡ true) }
{
    match e {
        Entry::Utf8(text) => {
            if keeps(kind, alloc, text.units())? {
                let behind = behind_mention(pool, alloc, e, at, rest)?;
                Ok((name_of(alloc, text.units())?, behind))
            } else {
                Err(ReadErr::BadBytes { offset: at })
            }
        }
        _ => Err(ReadErr::BadBytes { offset: at }),
    }
}

/// A name or a descriptor that is mentioned. Refused at its start exactly where the index is not that of such a text
/// that may be mentioned here, and at the file's length where that ends within it.
#[tactic(auto, unfolding(jvm_class_formats::specs::Formats::mention_at))]
pub fn text<'a>(
    kind: TextKind,
    pool: &Pool,
    alloc: Global,
    place: Place<'a>,
) -> Result<(Name, Place<'a>), ReadErr>
    ensures read { Reads (λ x. (x.0, x.1)) result
        ((mention pool.now entry.Utf8 (text_inside kind)).read place.entry) }
    ensures keeps { IfOk result (λ x. text_keeps kind x.0 ≡ true) }
{
    let at = place.offset();
    let (index, rest) = half(place)?;
    match pool.get(index) {
        Some(e) => text_of(kind, pool, alloc, e, at, rest),
        None => Err(ReadErr::BadBytes { offset: at }),
    }
}
