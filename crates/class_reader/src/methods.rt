//! Methods (JVMS SE 8 §4.6).

ghost use Rattle.jvm_class_formats.specs.Formats.{choose, counted, times};
ghost use Rattle.jvm_class_formats.specs.Reads.{Reads};
ghost use Rattle.jvm_class_grammar.specs.Grammar as grammar;
ghost use Rattle.jvm_class_types.specs.Seen.{code_seen, method_seen};
ghost use Rattle.std.specs.Prelude.{◌≡◌, map, option_map};

use crate::bodies::code_attribute;
use class_reader_members::flags::method_flags;
use class_reader_members::texts::{TextKind, text};
use jvm_class_formats::numbers::{half, only_half};
use jvm_class_formats::{Place, ReadErr};
use jvm_class_start::start_types;
use jvm_class_types::{Code, Method, MethodFlags};
use jvm_pool::Pool;
use kt_base::Name;
use std::alloc::Global;

/// The code of a method that isn't abstract: its one attribute.
fn some_code<'a>(
    pool: &Pool,
    alloc: Global,
    class: &Name,
    flags: MethodFlags,
    name: &Name,
    descriptor: &Name,
    place: Place<'a>,
) -> Result<(Option<Code>, Place<'a>), ReadErr>
    ensures { Reads (λ x. (option_map code_seen x.0, x.1)) result
        ((grammar.some_code pool.now (grammar.at_start class.now flags name.now descriptor.now)).read place.entry) }
{
    let (_, place) = only_half(1, place)?;
    let start = start_types(alloc, class, flags, name, descriptor)?;
    let (code, place) = code_attribute(pool, alloc, &start, place)?;
    Ok((Some(code), place))
}

/// The code of a method, which an abstract one doesn't have.
fn code_of<'a>(
    pool: &Pool,
    alloc: Global,
    class: &Name,
    flags: MethodFlags,
    name: &Name,
    descriptor: &Name,
    place: Place<'a>,
) -> Result<(Option<Code>, Place<'a>), ReadErr>
    ensures { Reads (λ x. (option_map code_seen x.0, x.1)) result
        ((choose (grammar.is_abstract pool.now flags) (grammar.no_code pool.now)
        (grammar.some_code pool.now (grammar.at_start class.now flags name.now descriptor.now))).read place.entry) }
{
    match flags {
        MethodFlags::Abstract => {
            let (_, place) = only_half(0, place)?;
            Ok((None, place))
        }
        MethodFlags::Instance | MethodFlags::Static => {
            some_code(pool, alloc, class, flags, name, descriptor, place)
        }
    }
}

/// A method of a class.
fn method<'a>(
    pool: &Pool,
    alloc: Global,
    class: &Name,
    place: Place<'a>,
) -> Result<(Method, Place<'a>), ReadErr>
    ensures { Reads (λ x. (method_seen x.0, x.1)) result ((grammar.method pool.now class.now).read place.entry) }
{
    let (flags, place) = method_flags(place)?;
    let (name, place) = text(TextKind::Name, pool, alloc, place)?;
    let (descriptor, place) = text(TextKind::MethodDescriptor, pool, alloc, place)?;
    let (code, place) = code_of(pool, alloc, class, flags, &name, &descriptor, place)?;
    Ok((
        Method {
            flags,
            name,
            descriptor,
            code,
        },
        place,
    ))
}

/// So many methods of a class.
fn some_methods<'a>(
    pool: &Pool,
    alloc: Global,
    class: &Name,
    count: u16,
    place: Place<'a>,
) -> Result<(Vec<Method>, Place<'a>), ReadErr>
    ensures { Reads (λ x. (map method_seen x.0.items, x.1)) result
        ((times (grammar.method pool.now class.now) count).read place.entry) }
{
    let mut methods = Vec::new(alloc);
    let mut spot = place;
    for i in 0..count {
        let (method, behind) = method(pool, alloc, class, spot)?;
        methods.push(method)?;
        spot = behind;
    }
    Ok((methods, spot))
}

/// The methods of a class behind their number.
pub(crate) fn methods<'a>(
    pool: &Pool,
    alloc: Global,
    class: &Name,
    place: Place<'a>,
) -> Result<(Vec<Method>, Place<'a>), ReadErr>
    ensures { Reads (λ x. (map method_seen x.0.items, x.1)) result
        ((counted (grammar.method pool.now class.now)).read place.entry) }
{
    let (count, place) = half(place)?;
    some_methods(pool, alloc, class, count, place)
}
