//! The names of attributes (JVMS SE 8 §4.7).

ghost use Rattle.class_reader_members.specs.TextKinds.{attribute_text};
ghost use Rattle.jvm_class_formats.specs.Formats.{mentioned, saying};
ghost use Rattle.jvm_class_formats.specs.Reads.{Reads};
ghost use Rattle.jvm_class_grammar.specs.Grammar as grammar;
ghost use Rattle.jvm_class_grammar.specs.Kinds.{text_is, this_text};
ghost use Rattle.std.specs.Prelude.{◌≡◌};

use jvm_class_formats::numbers::half;
use jvm_class_formats::{Place, ReadErr};
use jvm_mentions::behind_mention;
use jvm_pool::{Entry, Pool};
use std::alloc::Global;

/// An attribute that the profile has.
#[derive(Clone, Copy, Debug, PartialEq, Eq)]
pub enum Attribute {
    /// The code of a method (§4.7.3).
    Code,
    /// The frames of code (§4.7.4).
    StackMapTable,
}

impl Attribute {
    /// Whether a text is the name of the attribute.
    fn is_named(self, units: &[u16]) -> bool
        ensures { result ≡ text_is (attribute_text self) units.now }
    {
        match self {
            Attribute::Code => units == [67, 111, 100, 101].as_slice(),
            Attribute::StackMapTable => {
                units == [83, 116, 97, 99, 107, 77, 97, 112, 84, 97, 98, 108, 101].as_slice()
            }
        }
    }
}

/// The place behind the name of an attribute that an entry is, whose mention began at `at`; `rest` is the place behind
/// its index.
fn behind_name<'a>(
    attribute: Attribute,
    pool: &Pool,
    alloc: Global,
    e: &Entry,
    at: u64,
    rest: Place<'a>,
) -> Result<Place<'a>, ReadErr>
    ensures { Reads (λ s. (attribute_text attribute, s)) result
        (mentioned pool.now rest.entry at rest.entry.counter
        (saying e.now (this_text (attribute_text attribute) e.now))) }
{
    match e {
        Entry::Utf8(text) => {
            if attribute.is_named(text.units()) {
                behind_mention(pool, alloc, e, at, rest)
            } else {
                Err(ReadErr::BadBytes { offset: at })
            }
        }
        _ => Err(ReadErr::BadBytes { offset: at }),
    }
}

/// The place behind the name of an attribute. Refused at its start exactly where the index is not that of its name, or
/// that may not be mentioned here, and at the file's length where that ends within it.
#[tactic(auto, unfolding(jvm_class_formats::specs::Formats::mention_at))]
pub fn attribute_name<'a>(
    attribute: Attribute,
    pool: &Pool,
    alloc: Global,
    place: Place<'a>,
) -> Result<Place<'a>, ReadErr>
    ensures { Reads (λ s. (attribute_text attribute, s)) result
        ((grammar.attribute_name pool.now (attribute_text attribute)).read place.entry) }
{
    let at = place.offset();
    let (index, rest) = half(place)?;
    match pool.get(index) {
        Some(e) => behind_name(attribute, pool, alloc, e, at, rest),
        None => Err(ReadErr::BadBytes { offset: at }),
    }
}
