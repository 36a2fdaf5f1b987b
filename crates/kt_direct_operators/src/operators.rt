//! Operators on values.

ghost use Rattle.kt_direct_values.specs.Agree.{AgreesValue};
ghost use Rattle.kt_direct_values.specs.Forms.{store_form, value_form};
ghost use Rattle.kt_meaning.specs.Operators as spec;
ghost use Rattle.kt_meaning.specs.Types as types;
ghost use Rattle.kt_typed.specs.declared.operators.Width.TheVariants as width;
ghost use Rattle.kt_values.specs.Runs.{Store, give, or_unfit};
ghost use Rattle.kt_values.specs.Values as v;
ghost use Rattle.std.specs.Prelude.{◌≡◌};

use crate::kinds::{as_character, as_int, as_number, as_truth};
use crate::numbers::{
    calculated_int, calculated_long, is_ordered, joined_int, joined_long, shifted_int, shifted_long,
};
use kt_direct_values::{Abrupt, DirectStore, DirectValue, Fault, Stop};
use kt_tree::{PrefixOperator, StepOperator};
use kt_typed::{
    ArithmeticOperator, BitwiseOperator, ComparisonOperator, Ordered, ShiftOperator, Width,
};
use std::alloc::Global;

/// `-` and `!`.
pub fn prefixed(operator: PrefixOperator, x: &DirectValue) -> Result<DirectValue, Abrupt>
    ensures { (s : Store) → AgreesValue result s (spec.prefixed operator (value_form x.now) s) }
{
    match operator {
        PrefixOperator::Negate => negated(x),
        PrefixOperator::Not => match as_truth(x) {
            Some(b) => Ok(DirectValue::Truth(!b)),
            None => Err(Abrupt::Stopped(Stop::Unfit)),
        },
    }
}

/// `-` of a number.
fn negated(x: &DirectValue) -> Result<DirectValue, Abrupt>
    ensures { (s : Store) → AgreesValue result s (or_unfit (spec.negated (value_form x.now)) s) }
{
    match x {
        DirectValue::Int(n) => Ok(DirectValue::Int(n.wrapping_neg())),
        DirectValue::Long(n) => Ok(DirectValue::Long(n.wrapping_neg())),
        DirectValue::Truth(_)
        | DirectValue::Character(_)
        | DirectValue::Text(_)
        | DirectValue::Null
        | DirectValue::Unit
        | DirectValue::Entry(_, _)
        | DirectValue::Cell(_)
        | DirectValue::Closure(_, _)
        | DirectValue::Reference(_, _) => Err(Abrupt::Stopped(Stop::Unfit)),
    }
}

/// An operation on two numbers.
pub fn arithmetic(
    alloc: Global,
    operator: ArithmeticOperator,
    w: Width,
    x: &DirectValue,
    y: &DirectValue,
    store: &mut DirectStore,
) -> Result<DirectValue, Abrupt>
    ensures { AgreesValue result (store_form store.new)
        (spec.both (spec.operand w (value_form x.now)) (spec.operand w (value_form y.now))
        (spec.calculated operator w) (store_form store.old)) }
{
    match w {
        Width::Int => int_arithmetic(alloc, operator, x, y, store),
        Width::Long => long_arithmetic(alloc, operator, x, y, store),
    }
}

/// An operation on two `Int`s.
fn int_arithmetic(
    alloc: Global,
    operator: ArithmeticOperator,
    x: &DirectValue,
    y: &DirectValue,
    store: &mut DirectStore,
) -> Result<DirectValue, Abrupt>
    ensures { AgreesValue result (store_form store.new)
        (spec.both (v.as_int (value_form x.now)) (v.as_int (value_form y.now))
        (spec.calculated operator width.Int) (store_form store.old)) }
{
    match as_int(x) {
        Some(m) => match as_int(y) {
            Some(n) => Ok(DirectValue::Int(calculated_int(alloc, operator, m, n, store)?)),
            None => Err(Abrupt::Stopped(Stop::Unfit)),
        },
        None => Err(Abrupt::Stopped(Stop::Unfit)),
    }
}

/// An operation on two `Long`s, or on `Int`s that count as such.
fn long_arithmetic(
    alloc: Global,
    operator: ArithmeticOperator,
    x: &DirectValue,
    y: &DirectValue,
    store: &mut DirectStore,
) -> Result<DirectValue, Abrupt>
    ensures { AgreesValue result (store_form store.new)
        (spec.both (v.as_number (value_form x.now)) (v.as_number (value_form y.now))
        (spec.calculated operator width.Long) (store_form store.old)) }
{
    match as_number(x) {
        Some(m) => match as_number(y) {
            Some(n) => Ok(DirectValue::Long(calculated_long(alloc, operator, m, n, store)?)),
            None => Err(Abrupt::Stopped(Stop::Unfit)),
        },
        None => Err(Abrupt::Stopped(Stop::Unfit)),
    }
}

/// `++` and `--`.
pub fn stepped(
    alloc: Global,
    operator: StepOperator,
    w: Width,
    x: &DirectValue,
    store: &mut DirectStore,
) -> Result<DirectValue, Abrupt>
    ensures { AgreesValue result (store_form store.new)
        (spec.stepped operator w (value_form x.now) (store_form store.old)) }
{
    let by = match operator {
        StepOperator::Increment => ArithmeticOperator::Plus,
        StepOperator::Decrement => ArithmeticOperator::Minus,
    };
    arithmetic(alloc, by, w, x, &DirectValue::Int(1), store)
}

/// `and`, `or` and `xor`.
pub fn bitwise(
    operator: BitwiseOperator,
    w: Width,
    x: &DirectValue,
    y: &DirectValue,
) -> Result<DirectValue, Abrupt>
    ensures { (s : Store) → AgreesValue result s
        (spec.both (spec.operand w (value_form x.now)) (spec.operand w (value_form y.now))
        (λ m n. give (spec.joined_bits operator w m n)) s) }
{
    match w {
        Width::Int => match as_int(x) {
            Some(m) => match as_int(y) {
                Some(n) => Ok(DirectValue::Int(joined_int(operator, m, n))),
                None => Err(Abrupt::Stopped(Stop::Unfit)),
            },
            None => Err(Abrupt::Stopped(Stop::Unfit)),
        },
        Width::Long => match as_number(x) {
            Some(m) => match as_number(y) {
                Some(n) => Ok(DirectValue::Long(joined_long(operator, m, n))),
                None => Err(Abrupt::Stopped(Stop::Unfit)),
            },
            None => Err(Abrupt::Stopped(Stop::Unfit)),
        },
    }
}

/// `shl`, `shr` and `ushr`. The count is an `Int` in both widths.
pub fn shifted(
    operator: ShiftOperator,
    w: Width,
    x: &DirectValue,
    y: &DirectValue,
) -> Result<DirectValue, Abrupt>
    ensures { (s : Store) → AgreesValue result s
        (spec.both (spec.operand w (value_form x.now)) (v.as_int (value_form y.now))
        (λ m n. give (spec.shifted operator w m n)) s) }
{
    match w {
        Width::Int => match as_int(x) {
            Some(m) => match as_int(y) {
                Some(n) => Ok(DirectValue::Int(shifted_int(operator, m, n))),
                None => Err(Abrupt::Stopped(Stop::Unfit)),
            },
            None => Err(Abrupt::Stopped(Stop::Unfit)),
        },
        Width::Long => match as_number(x) {
            Some(m) => match as_int(y) {
                Some(n) => Ok(DirectValue::Long(shifted_long(operator, m, n))),
                None => Err(Abrupt::Stopped(Stop::Unfit)),
            },
            None => Err(Abrupt::Stopped(Stop::Unfit)),
        },
    }
}

/// A number, or the code of a character.
fn rank(kind: Ordered, x: &DirectValue) -> Option<i64>
    ensures { result ≡ spec.rank kind (value_form x.now) }
{
    match kind {
        Ordered::Numbers(_) => as_number(x),
        Ordered::Characters => match as_character(x) {
            Some(c) => Some(c as i64),
            None => None,
        },
    }
}

/// `<`, `>`, `<=` and `>=`.
pub fn compared(
    operator: ComparisonOperator,
    kind: Ordered,
    x: &DirectValue,
    y: &DirectValue,
) -> Result<DirectValue, Abrupt>
    ensures { (s : Store) → AgreesValue result s
        (spec.both (spec.rank kind (value_form x.now)) (spec.rank kind (value_form y.now))
        (λ m n. give (v.truth (spec.is_ordered operator m n))) s) }
{
    match rank(kind, x) {
        Some(m) => match rank(kind, y) {
            Some(n) => Ok(DirectValue::Truth(is_ordered(operator, m, n))),
            None => Err(Abrupt::Stopped(Stop::Unfit)),
        },
        None => Err(Abrupt::Stopped(Stop::Unfit)),
    }
}

/// `x!!`.
#[tactic(auto, using(kt_direct_values::proofs::Passing::raised))]
pub fn asserted(
    alloc: Global,
    x: DirectValue,
    store: &mut DirectStore,
) -> Result<DirectValue, Abrupt>
    ensures { AgreesValue result (store_form store.new) (types.asserted (value_form x) (store_form store.old)) }
{
    match x {
        DirectValue::Null => Err(store.raise(alloc, Fault::NullAsserted)),
        DirectValue::Int(_)
        | DirectValue::Long(_)
        | DirectValue::Truth(_)
        | DirectValue::Character(_)
        | DirectValue::Text(_)
        | DirectValue::Unit
        | DirectValue::Entry(_, _)
        | DirectValue::Cell(_)
        | DirectValue::Closure(_, _)
        | DirectValue::Reference(_, _) => Ok(x),
    }
}
