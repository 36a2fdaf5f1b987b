//! What stands behind the pool of a class file (JVMS SE 8 §4.1).

ghost use Rattle.class_reader.specs.Bodies.{class_parts_seen, members, members_seen};
ghost use Rattle.jvm_class_formats.specs.Reads.{Reads};
ghost use Rattle.jvm_class_grammar.specs.Grammar as grammar;
ghost use Rattle.std.specs.Prelude.{◌≡◌};

use crate::methods::methods;
use class_reader_members::fields::fields;
use class_reader_members::flags::class_flags;
use class_reader_members::interfaces::interfaces;
use jvm_class_formats::numbers::only_half;
use jvm_class_formats::{Place, ReadErr};
use jvm_class_types::{ClassFlags, Field, Method};
use jvm_mentions::class_name;
use jvm_pool::Pool;
use kt_base::Name;
use std::alloc::Global;

/// The interfaces, the fields and the methods of a class.
#[derive(Drop)]
pub(crate) struct Members {
    pub interfaces: Vec<Name>,
    pub fields: Vec<Field>,
    pub methods: Vec<Method>,
}

/// A class without its pool.
#[derive(Drop)]
pub(crate) struct ClassBody {
    pub flags: ClassFlags,
    pub name: Name,
    pub super_class: Name,
    pub members: Members,
}

/// The members of a class, and that it has no attributes.
fn class_members<'a>(
    pool: &Pool,
    alloc: Global,
    class: &Name,
    place: Place<'a>,
) -> Result<(Members, Place<'a>), ReadErr>
    ensures { Reads (λ x. (members_seen x.0, x.1)) result ((members pool.now class.now).read place.entry) }
{
    let (interfaces, place) = interfaces(pool, alloc, place)?;
    let (fields, place) = fields(pool, alloc, place)?;
    let (methods, place) = methods(pool, alloc, class, place)?;
    let (_, place) = only_half(0, place)?;
    Ok((
        Members {
            interfaces,
            fields,
            methods,
        },
        place,
    ))
}

/// A class behind its pool.
pub(crate) fn class_body<'a>(
    pool: &Pool,
    alloc: Global,
    place: Place<'a>,
) -> Result<(ClassBody, Place<'a>), ReadErr>
    ensures { Reads (λ x. (class_parts_seen x.0, x.1)) result ((grammar.class pool.now).read place.entry) }
{
    let (flags, place) = class_flags(place)?;
    let (name, place) = class_name(pool, alloc, place)?;
    let (super_class, place) = class_name(pool, alloc, place)?;
    let (members, place) = class_members(pool, alloc, &name, place)?;
    Ok((
        ClassBody {
            flags,
            name,
            super_class,
            members,
        },
        place,
    ))
}
