//! `Int` and `Long`.

ghost use Rattle.kt_direct_values.specs.Agree.{Agrees};
ghost use Rattle.kt_direct_values.specs.Forms.{store_form};
ghost use Rattle.kt_meaning.specs.Operators as spec;
ghost use Rattle.kt_typed.specs.declared.operators.Width.TheVariants as width;
ghost use Rattle.kt_values.specs.Values as v;
ghost use Rattle.std.specs.Prelude.{◌≡◌};

use kt_direct_values::{Abrupt, DirectStore, Fault};
use kt_typed::{ArithmeticOperator, BitwiseOperator, ComparisonOperator, ShiftOperator};
use kt_values::numbers::{
    int_quotient, int_remainder, int_shifted_left, int_shifted_right, int_shifted_right_unsigned,
    long_quotient, long_remainder, long_shifted_left, long_shifted_right,
    long_shifted_right_unsigned,
};
use std::alloc::Global;

/// What there is, or a zero divisor.
#[tactic(auto, using(kt_direct_values::proofs::Passing::raised))]
fn divided_int(alloc: Global, quotient: Option<i32>, store: &mut DirectStore) -> Result<i32, Abrupt>
    ensures { Agrees v.int result (store_form store.new) (spec.divided width.Int quotient (store_form store.old)) }
{
    match quotient {
        Some(n) => Ok(n),
        None => Err(store.raise(alloc, Fault::ZeroDivisor)),
    }
}

/// What there is, or a zero divisor.
#[tactic(auto, using(kt_direct_values::proofs::Passing::raised))]
fn divided_long(
    alloc: Global,
    quotient: Option<i64>,
    store: &mut DirectStore,
) -> Result<i64, Abrupt>
    ensures { Agrees v.long result (store_form store.new) (spec.divided width.Long quotient (store_form store.old)) }
{
    match quotient {
        Some(n) => Ok(n),
        None => Err(store.raise(alloc, Fault::ZeroDivisor)),
    }
}

/// An operation on two `Int`s.
pub fn calculated_int(
    alloc: Global,
    operator: ArithmeticOperator,
    x: i32,
    y: i32,
    store: &mut DirectStore,
) -> Result<i32, Abrupt>
    ensures { Agrees v.int result (store_form store.new)
        (spec.calculated operator width.Int x y (store_form store.old)) }
{
    match operator {
        ArithmeticOperator::Plus => Ok(x.wrapping_add(y)),
        ArithmeticOperator::Minus => Ok(x.wrapping_sub(y)),
        ArithmeticOperator::Times => Ok(x.wrapping_mul(y)),
        ArithmeticOperator::Divide => divided_int(alloc, int_quotient(x, y), store),
        ArithmeticOperator::Remainder => divided_int(alloc, int_remainder(x, y), store),
    }
}

/// An operation on two `Long`s.
pub fn calculated_long(
    alloc: Global,
    operator: ArithmeticOperator,
    x: i64,
    y: i64,
    store: &mut DirectStore,
) -> Result<i64, Abrupt>
    ensures { Agrees v.long result (store_form store.new)
        (spec.calculated operator width.Long x y (store_form store.old)) }
{
    match operator {
        ArithmeticOperator::Plus => Ok(x.wrapping_add(y)),
        ArithmeticOperator::Minus => Ok(x.wrapping_sub(y)),
        ArithmeticOperator::Times => Ok(x.wrapping_mul(y)),
        ArithmeticOperator::Divide => divided_long(alloc, long_quotient(x, y), store),
        ArithmeticOperator::Remainder => divided_long(alloc, long_remainder(x, y), store),
    }
}

/// `and`, `or` and `xor` of two `Int`s.
pub fn joined_int(operator: BitwiseOperator, x: i32, y: i32) -> i32
    ensures { v.int result ≡ spec.joined_bits operator width.Int x y }
{
    match operator {
        BitwiseOperator::And => x & y,
        BitwiseOperator::Or => x | y,
        BitwiseOperator::Xor => x ^ y,
    }
}

/// `and`, `or` and `xor` of two `Long`s.
pub fn joined_long(operator: BitwiseOperator, x: i64, y: i64) -> i64
    ensures { v.long result ≡ spec.joined_bits operator width.Long x y }
{
    match operator {
        BitwiseOperator::And => x & y,
        BitwiseOperator::Or => x | y,
        BitwiseOperator::Xor => x ^ y,
    }
}

/// A shift of an `Int`.
pub fn shifted_int(operator: ShiftOperator, x: i32, count: i32) -> i32
    ensures { v.int result ≡ spec.shifted operator width.Int x count }
{
    match operator {
        ShiftOperator::Shl => int_shifted_left(x, count),
        ShiftOperator::Shr => int_shifted_right(x, count),
        ShiftOperator::Ushr => int_shifted_right_unsigned(x, count),
    }
}

/// A shift of a `Long`.
pub fn shifted_long(operator: ShiftOperator, x: i64, count: i32) -> i64
    ensures { v.long result ≡ spec.shifted operator width.Long x count }
{
    match operator {
        ShiftOperator::Shl => long_shifted_left(x, count),
        ShiftOperator::Shr => long_shifted_right(x, count),
        ShiftOperator::Ushr => long_shifted_right_unsigned(x, count),
    }
}

/// Whether two numbers are in this order.
pub fn is_ordered(operator: ComparisonOperator, x: i64, y: i64) -> bool
    ensures { result ≡ spec.is_ordered operator x y }
{
    match operator {
        ComparisonOperator::Less => x < y,
        ComparisonOperator::Greater => y < x,
        ComparisonOperator::LessOrEqual => x <= y,
        ComparisonOperator::GreaterOrEqual => y <= x,
    }
}
