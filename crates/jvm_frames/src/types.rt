//! Types in frames, as they are read (JVMS SE 8 §4.7.4).

ghost use Rattle.jvm_class_formats.specs.Formats.{counted, times, u2, variant};
ghost use Rattle.jvm_class_formats.specs.Reads.{Reads};
ghost use Rattle.jvm_class_types.specs.declared.frames.FrameType.TheVariants as type;
ghost use Rattle.jvm_maps.specs.Types as types;
ghost use Rattle.jvm_maps.specs.Types.{bare_type};
ghost use Rattle.std.specs.Prelude.{◌≡◌};

use jvm_class_formats::numbers::{byte, half};
use jvm_class_formats::{Place, ReadErr};
use jvm_class_types::FrameType;
use jvm_mentions::class_name;
use jvm_pool::Pool;
use std::alloc::Global;

/// The type that a tag alone is: `None` for any other number.
#[tactic(auto, unfolding(jvm_maps::specs::Types::bare_type))]
fn bare_type(tag: u8) -> Option<FrameType>
    ensures { result ≡ bare_type tag }
{
    match tag {
        0 => Some(FrameType::Top),
        1 => Some(FrameType::Integer),
        4 => Some(FrameType::Long),
        5 => Some(FrameType::Null),
        6 => Some(FrameType::UninitializedThis),
        _ => None,
    }
}

/// The object of a class, by the mention behind its tag.
fn object<'a>(
    pool: &Pool,
    alloc: Global,
    place: Place<'a>,
) -> Result<(FrameType, Place<'a>), ReadErr>
    ensures { Reads (λ x. (x.0, x.1)) result ((types.behind_tag pool.now 7).read place.entry) }
{
    let (name, place) = class_name(pool, alloc, place)?;
    Ok((FrameType::Object(name), place))
}

/// The object that a *new* made, by the offset behind its tag.
fn uninitialized(place: Place<'_>) -> Result<(FrameType, Place<'_>), ReadErr>
    ensures { Reads (λ x. (x.0, x.1)) result
        ((variant type.Uninitialized types.uninitialized_inside u2).read place.entry) }
{
    let (at, place) = half(place)?;
    Ok((FrameType::Uninitialized(u32::from(at)), place))
}

/// A type. Refused at its tag where that is none, at a mention where no class may be mentioned so, and at the file's
/// length where that ends within it.
pub fn frame_type<'a>(
    pool: &Pool,
    alloc: Global,
    place: Place<'a>,
) -> Result<(FrameType, Place<'a>), ReadErr>
    ensures { Reads (λ x. (x.0, x.1)) result ((types.frame_type pool.now).read place.entry) }
{
    let at = place.offset();
    let (tag, place) = byte(place)?;
    match tag {
        7 => object(pool, alloc, place),
        8 => uninitialized(place),
        _ => match bare_type(tag) {
            Some(frame_type) => Ok((frame_type, place)),
            None => Err(ReadErr::BadBytes { offset: at }),
        },
    }
}

/// So many types.
pub fn frame_types<'a>(
    pool: &Pool,
    alloc: Global,
    count: u16,
    place: Place<'a>,
) -> Result<(Vec<FrameType>, Place<'a>), ReadErr>
    ensures { Reads (λ x. (x.0.items, x.1)) result ((times (types.frame_type pool.now) count).read place.entry) }
{
    let mut types = Vec::new(alloc);
    let mut rest = place;
    for _turn in 0..count {
        let (frame_type, behind) = frame_type(pool, alloc, rest)?;
        types.push(frame_type)?;
        rest = behind;
    }
    Ok((types, rest))
}

/// Types behind their number.
pub fn counted_types<'a>(
    pool: &Pool,
    alloc: Global,
    place: Place<'a>,
) -> Result<(Vec<FrameType>, Place<'a>), ReadErr>
    ensures { Reads (λ x. (x.0.items, x.1)) result ((counted (types.frame_type pool.now)).read place.entry) }
{
    let (count, place) = half(place)?;
    frame_types(pool, alloc, count, place)
}
