//! The interfaces directly above a class (JVMS SE 8 §4.1).

ghost use Rattle.jvm_class_formats.specs.Formats.{counted};
ghost use Rattle.jvm_maps.specs.Types as types;
ghost use Rattle.jvm_pieces.specs.Pieces.{pieces};
ghost use Rattle.std.specs.List.{flat_map};
ghost use Rattle.std.specs.Prelude.{◌≡◌, ◌<◌, ◌^◌, ◌++◌, length, OnOk};

use crate::items::{put_class, put_half};
use jvm_pool::Pool;
use kt_base::{Name, NoMemory};

/// Appends the index of each of these classes.
fn put_each(names: &[Name], pool: &Pool, into: &mut Vec<u8>) -> Result<(), NoMemory>
    ensures { OnOk result (into.new.items ≡ into.old.items
        ++ pieces pool.now (flat_map (types.class_name pool.now).spell names.now)) }
{
    for name in names {
        put_class(name, pool, into)?;
    }
    Ok(())
}

/// Appends the indices of interfaces behind their number.
pub fn put_interfaces(names: &[Name], pool: &Pool, into: &mut Vec<u8>) -> Result<(), NoMemory>
    requires { length names.now < 2 ^ 16 }
    ensures { OnOk result (into.new.items ≡ into.old.items
        ++ pieces pool.now ((counted (types.class_name pool.now)).spell names.now)) }
{
    put_half(names.len() as u16, into)?;
    put_each(names, pool, into)?;
    Ok(())
}
