//! The interfaces directly above a class (JVMS SE 8 §4.1).

ghost use Rattle.jvm_class_formats.specs.Formats.{counted, times};
ghost use Rattle.jvm_class_formats.specs.Reads.{Reads};
ghost use Rattle.jvm_maps.specs.Types as types;
ghost use Rattle.std.specs.Prelude.{◌≡◌};

use jvm_class_formats::numbers::half;
use jvm_class_formats::{Place, ReadErr};
use jvm_mentions::class_name;
use jvm_pool::Pool;
use kt_base::Name;
use std::alloc::Global;

/// The names of so many classes.
fn some_names<'a>(
    pool: &Pool,
    alloc: Global,
    count: u16,
    place: Place<'a>,
) -> Result<(Vec<Name>, Place<'a>), ReadErr>
    ensures { Reads (λ x. (x.0.items, x.1)) result
        ((times (types.class_name pool.now) count).read place.entry) }
{
    let mut names = Vec::new(alloc);
    let mut spot = place;
    for i in 0..count {
        let (name, behind) = class_name(pool, alloc, spot)?;
        names.push(name)?;
        spot = behind;
    }
    Ok((names, spot))
}

/// The names of interfaces behind their number. Refused at the first item in file order that breaks its rule.
pub fn interfaces<'a>(
    pool: &Pool,
    alloc: Global,
    place: Place<'a>,
) -> Result<(Vec<Name>, Place<'a>), ReadErr>
    ensures { Reads (λ x. (x.0.items, x.1)) result
        ((counted (types.class_name pool.now)).read place.entry) }
{
    let (count, place) = half(place)?;
    some_names(pool, alloc, count, place)
}
