//! New throwables of the classes that every file has.

ghost use Rattle.kt_direct_values.specs.Agree.{AgreesValue};
ghost use Rattle.kt_direct_values.specs.Forms.{store_form, value_form};
ghost use Rattle.kt_meaning.specs.Calls as spec;
ghost use Rattle.kt_values.specs.Runs.{Store, or_unfit};
ghost use Rattle.std.specs.Prelude.{map};

use kt_direct_values::store::one_item;
use kt_direct_values::{Abrupt, DirectShape, DirectStore, DirectValue, Stop};
use std::alloc::Global;

/// The message of a throwable that is built with these arguments.
pub fn message_of(alloc: Global, arguments: &[DirectValue]) -> Result<DirectValue, Abrupt>
    ensures { (s : Store) → AgreesValue result s (or_unfit (spec.message_of (map value_form arguments.now)) s) }
{
    match arguments {
        [] => Ok(DirectValue::Null),
        [x] => Ok(x.copy(alloc)?),
        [_, _, ..] => Err(Abrupt::Stopped(Stop::Unfit)),
    }
}

/// A new throwable of a class that every file has.
pub fn built_throwable(
    alloc: Global,
    c: u32,
    arguments: &[DirectValue],
    store: &mut DirectStore<'_>,
) -> Result<DirectValue, Abrupt>
    ensures { AgreesValue result (store_form store.new)
        (spec.built_throwable c (map value_form arguments.now) (store_form store.old)) }
{
    let message = message_of(alloc, arguments)?;
    let slots = one_item(alloc, message)?;
    Ok(store.make(DirectShape::Instance(c), slots)?)
}
