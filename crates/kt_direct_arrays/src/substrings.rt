//! `substring`.

ghost use Rattle.kt_direct_values.specs.Agree.{AgreesValue};
ghost use Rattle.kt_direct_values.specs.Forms.{store_form, value_form};
ghost use Rattle.kt_meaning.specs.BuiltIns as spec;
ghost use Rattle.std.specs.Prelude.{◌≡◌, ◌-◌, ◌≤◌, [], ◌∷◌, IfOk, IfSome, None, drop, false, length, map, pos, take, true};

use crate::indices::index_of;
use kt_base::Text16;
use kt_direct_operators::{as_int, as_text};
use kt_direct_values::{Abrupt, DirectStore, DirectValue, Fault, Stop};
use std::alloc::{AllocError, Global};

/// A bound that is in a text of so many units.
fn bound_of(count: usize, n: i32) -> Option<usize>
    ensures some { IfSome result (λ k. (n ≡ pos k) × (k ≤ count)) }
    ensures inside { IfSome result (λ k. spec.is_outside count n ≡ false) }
    ensures none { result ≡ None → spec.is_outside count n ≡ true }
{
    match index_of(n) {
        Some(k) => { if count < k { None } else { Some(k) } }
        None => None,
    }
}

/// The units from a bound to a later one.
fn units_between(alloc: Global, t: &[u16], start: usize, end: usize) -> Result<Text16, AllocError>
    requires order { start ≤ end }
    requires within { end ≤ length t.now }
    ensures { IfOk result (λ units. units ≡ take (end - start) (drop start t.now)) }
{
    Ok(Text16::from_units(Vec::from_slice(alloc, &t[start..end])?))
}

/// The part of a string between two bounds. The first bound that is outside is blamed, else the start.
#[tactic(auto, using(kt_direct_values::proofs::Passing::raised))]
fn cut_out(
    alloc: Global,
    t: &Text16,
    start: i32,
    end: i32,
    store: &mut DirectStore<'_>,
) -> Result<DirectValue, Abrupt>
    ensures { AgreesValue result (store_form store.new) (spec.cut_out t.now start end (store_form store.old)) }
{
    let units = t.units();
    match bound_of(units.len(), start) {
        Some(first) => match bound_of(units.len(), end) {
            Some(last) => {
                if last < first {
                    return Err(store.raise(alloc, Fault::TextIndex(start)));
                }
                Ok(DirectValue::Text(units_between(alloc, units, first, last)?))
            }
            None => Err(store.raise(alloc, Fault::TextIndex(end))),
        },
        None => Err(store.raise(alloc, Fault::TextIndex(start))),
    }
}

/// `substring` with its two bounds.
fn between(
    alloc: Global,
    x: &DirectValue,
    start: &DirectValue,
    end: &DirectValue,
    store: &mut DirectStore<'_>,
) -> Result<DirectValue, Abrupt>
    ensures { AgreesValue result (store_form store.new) (spec.substring (value_form x.now)
        (value_form start.now ∷ value_form end.now ∷ []) (store_form store.old)) }
{
    match as_text(x) {
        Some(t) => match as_int(start) {
            Some(m) => match as_int(end) {
                Some(n) => cut_out(alloc, t, m, n, store),
                None => Err(Abrupt::Stopped(Stop::Unfit)),
            },
            None => Err(Abrupt::Stopped(Stop::Unfit)),
        },
        None => Err(Abrupt::Stopped(Stop::Unfit)),
    }
}

/// `substring`.
pub fn substring(
    alloc: Global,
    x: &DirectValue,
    arguments: &[DirectValue],
    store: &mut DirectStore<'_>,
) -> Result<DirectValue, Abrupt>
    ensures { AgreesValue result (store_form store.new)
        (spec.substring (value_form x.now) (map value_form arguments.now) (store_form store.old)) }
{
    match arguments {
        [start, end] => between(alloc, x, start, end, store),
        [] | [_] | [_, _, _, ..] => Err(Abrupt::Stopped(Stop::Unfit)),
    }
}
