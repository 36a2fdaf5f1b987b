//! Casts.

ghost use Rattle.kt_direct_values.specs.Agree.{AgreesValue};
ghost use Rattle.kt_direct_values.specs.Forms.{store_form, value_form};
ghost use Rattle.kt_meaning.specs.Types as spec;
ghost use Rattle.kt_typed.specs.Units.{unit_form};
ghost use Rattle.kt_types_tree.specs.Types.{type_form};

use kt_direct_classes::is_of;
use kt_direct_values::{Abrupt, DirectStore, DirectValue, Fault};
use kt_typed::TypedUnit;
use kt_types_tree::KtType;
use std::alloc::Global;

/// `x as T`, and `x as? T` where a failed cast is null.
#[tactic(auto, using(kt_direct_values::proofs::Passing::raised))]
pub fn cast_to(
    alloc: Global,
    unit: &TypedUnit,
    or_null: bool,
    t: &KtType,
    x: DirectValue,
    store: &mut DirectStore<'_>,
) -> Result<DirectValue, Abrupt>
    ensures { AgreesValue result (store_form store.new)
        (spec.cast_to (unit_form unit.now) or_null (type_form t.now) (value_form x) (store_form store.old)) }
{
    if is_of(unit, t, &x) {
        return Ok(x);
    }
    if or_null {
        return Ok(DirectValue::Null);
    }
    Err(store.raise(alloc, Fault::FailedCast))
}
