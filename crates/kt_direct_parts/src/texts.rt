//! Texts of values, and printing.

ghost use Rattle.kt_direct_values.specs.Agree.{AgreesSame, AgreesValue};
ghost use Rattle.kt_direct_values.specs.Forms.{store_form, value_form};
ghost use Rattle.kt_meaning.specs.BuiltIns as built_ins;
ghost use Rattle.kt_meaning.specs.Printing as spec;
ghost use Rattle.kt_values.specs.Runs as runs;
ghost use Rattle.kt_values.specs.Runs.{Store};
ghost use Rattle.kt_values.specs.Texts as texts;
ghost use Rattle.std.specs.Prelude.{◌≡◌, ◌+◌, ◌++◌, IfOk, nat_lt};

use kt_base::{Answer, Event, Text16};
use kt_direct_values::texts::text_of_basic;
use kt_direct_values::{Abrupt, DirectStore, DirectValue, Fault, Stop};
use std::alloc::{AllocError, Global};

/// The text of a value that is no object and no entry of an enum.
pub fn basic_text(alloc: Global, x: &DirectValue) -> Result<Text16, Abrupt>
    ensures { (s : Store) → AgreesSame result s (runs.or_unfit (texts.text_of_basic (value_form x.now)) s) }
{
    match text_of_basic(alloc, x)? {
        Some(t) => Ok(t),
        None => Err(Abrupt::Stopped(Stop::Unfit)),
    }
}

/// A text is printed. A turn is charged behind the argument.
pub fn printed(t: Text16, store: &mut DirectStore<'_>) -> Result<DirectValue, Abrupt>
    ensures { AgreesValue result (store_form store.new) (built_ins.printed t (store_form store.old)) }
{
    store.charge()?;
    match store.ask(Event::Print(t))? {
        Answer::Done => Ok(DirectValue::Unit),
        Answer::Number(_) | Answer::Full | Answer::Won | Answer::Lost | Answer::Outcome(_) => {
            Err(Abrupt::Stopped(Stop::Unfit))
        }
    }
}

/// Whether two texts are more than 16,777,216 units together.
fn is_too_long(first: usize, second: usize) -> bool
    ensures { result ≡ nat_lt 16777216 (first + second) }
{
    if first > 16_777_216 {
        return true;
    }
    if second > 16_777_216 {
        return true;
    }
    first + second > 16_777_216
}

/// One text behind another.
fn behind(alloc: Global, first: &[u16], second: &[u16]) -> Result<Text16, AllocError>
    ensures { IfOk result (λ t. t ≡ first.now ++ second.now) }
{
    let mut units = Vec::from_slice(alloc, first)?;
    units.extend_from_slice(second)?;
    Ok(Text16::from_units(units))
}

/// One text behind another. One that is too long throws.
#[tactic(auto, using(kt_direct_values::proofs::Passing::raised))]
pub fn joined(
    alloc: Global,
    first: &Text16,
    second: &Text16,
    store: &mut DirectStore<'_>,
) -> Result<Text16, Abrupt>
    ensures { AgreesSame result (store_form store.new) (spec.joined first.now second.now (store_form store.old)) }
{
    if is_too_long(first.units().len(), second.units().len()) {
        return Err(store.raise(alloc, Fault::TextTooLong));
    }
    Ok(behind(alloc, first.units(), second.units())?)
}
