//! New arrays.

ghost use Rattle.kt_direct_values.specs.Agree.{AgreesValue};
ghost use Rattle.kt_direct_values.specs.Forms.{shape_form, store_form, value_form};
ghost use Rattle.kt_meaning.specs.BuiltIns as spec;
ghost use Rattle.std.specs.Prelude.{◌≡◌, IfOk, map, replicate};

use crate::indices::index_of;
use kt_direct_operators::as_int;
use kt_direct_values::{Abrupt, DirectShape, DirectStore, DirectValue, Fault, Stop};
use sqlite_items::Items;
use std::alloc::{AllocError, Global};

/// So many of one value.
fn copies(alloc: Global, first: &DirectValue, n: usize) -> Result<Items<DirectValue>, AllocError>
    ensures { IfOk result (λ all. map value_form all ≡ replicate n (value_form first.now)) }
{
    let mut all = Items::new(alloc);
    for _copy in 0..n {
        all.push(first.copy(alloc)?)?;
    }
    Ok(all)
}

/// A new array of so many of one value. A size below zero throws.
#[tactic(auto, using(kt_direct_values::proofs::Passing::raised))]
fn filled(
    alloc: Global,
    shape: DirectShape,
    first: &DirectValue,
    n: i32,
    store: &mut DirectStore<'_>,
) -> Result<DirectValue, Abrupt>
    ensures { AgreesValue result (store_form store.new)
        (spec.filled (shape_form shape) (value_form first.now) n (store_form store.old)) }
{
    match index_of(n) {
        Some(count) => {
            let slots = copies(alloc, first, count)?;
            Ok(store.make(shape, slots)?)
        }
        None => Err(store.raise(alloc, Fault::NegativeSize(n))),
    }
}

/// A new array, whose size is the one argument.
pub fn new_array(
    alloc: Global,
    shape: DirectShape,
    first: &DirectValue,
    arguments: &[DirectValue],
    store: &mut DirectStore<'_>,
) -> Result<DirectValue, Abrupt>
    ensures { AgreesValue result (store_form store.new)
        (spec.new_array (shape_form shape) (value_form first.now) (map value_form arguments.now)
        (store_form store.old)) }
{
    match arguments {
        [size] => match as_int(size) {
            Some(n) => filled(alloc, shape, first, n, store),
            None => Err(Abrupt::Stopped(Stop::Unfit)),
        },
        [] | [_, _, ..] => Err(Abrupt::Stopped(Stop::Unfit)),
    }
}
