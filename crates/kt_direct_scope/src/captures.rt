//! What a lambda captures where its literal is evaluated, and what it sees of that.

ghost use Rattle.kt_direct_scope.specs.Activation.{here_form};
ghost use Rattle.kt_direct_values.specs.Agree.{Agrees, AgreesValue};
ghost use Rattle.kt_direct_values.specs.Forms.{store_form, value_form};
ghost use Rattle.kt_meaning.specs.Units as units;
ghost use Rattle.kt_meaning.specs.Variables as spec;
ghost use Rattle.kt_typed.specs.Bodies.{fun_form};
ghost use Rattle.kt_typed.specs.Operators.{capture_form};
ghost use Rattle.std.specs.Prelude.{◌≡◌, IfOk, map};

use crate::here::Here;
use kt_direct_values::{Abrupt, DirectStore, DirectValue, Stop};
use kt_typed::{Capture, CaptureSource, TypedFun};
use sqlite_items::Items;
use std::alloc::{AllocError, Global};

/// What is captured from one source.
fn captured_from(
    alloc: Global,
    here: &Here<'_>,
    source: CaptureSource,
    store: &DirectStore<'_>,
) -> Result<DirectValue, Abrupt>
    ensures { AgreesValue result (store_form store.now)
        (spec.captured_from (here_form here.now) source (store_form store.now)) }
{
    match source {
        CaptureSource::This => Ok(here.receiver(alloc)?),
        CaptureSource::Local(n) => Ok(store.local_slot(n)?.copy(alloc)?),
        CaptureSource::Captured(n) => match here.captured(n) {
            Some(x) => Ok(x.copy(alloc)?),
            None => Err(Abrupt::Stopped(Stop::Unfit)),
        },
    }
}

/// What is captured, in order.
fn captured_all(
    alloc: Global,
    here: &Here<'_>,
    captures: &[Capture],
    store: &DirectStore<'_>,
) -> Result<Items<DirectValue>, Abrupt>
    ensures { Agrees (map value_form) result (store_form store.now)
        (spec.captured_all (here_form here.now) (map capture_form captures.now) (store_form store.now)) }
{
    let mut taken = Items::new(alloc);
    for capture in captures {
        let x = captured_from(alloc, here, capture.source, store)?;
        taken.push(x)?;
    }
    Ok(taken)
}

/// The value of a lambda literal, which takes a turn. Of a `var` it captures the object.
pub fn lambda_value(
    alloc: Global,
    here: &Here<'_>,
    n: u32,
    body: &TypedFun,
    store: &mut DirectStore<'_>,
) -> Result<DirectValue, Abrupt>
    ensures { AgreesValue result (store_form store.new)
        (spec.lambda_value (here_form here.now) n (fun_form body.now) (store_form store.old)) }
{
    store.charge()?;
    let taken = captured_all(alloc, here, body.captures.as_slice(), &*store)?;
    Ok(DirectValue::Closure(n, taken))
}

/// `this` in a lambda: its first capture, where that is one; else null.
pub fn lambda_receiver(
    alloc: Global,
    body: &TypedFun,
    taken: &[DirectValue],
) -> Result<DirectValue, AllocError>
    ensures { IfOk result (λ x. value_form x ≡ units.lambda_receiver (fun_form body.now) (map value_form taken.now)) }
{
    match body.captures.as_slice() {
        [] => Ok(DirectValue::Null),
        [first, ..] => match taken {
            [] => Ok(DirectValue::Null),
            [x, ..] => match first.source {
                CaptureSource::This => x.copy(alloc),
                CaptureSource::Local(_) | CaptureSource::Captured(_) => Ok(DirectValue::Null),
            },
        },
    }
}
