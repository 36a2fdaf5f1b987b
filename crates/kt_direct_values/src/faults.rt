//! What the language throws by itself: its class and its message.

ghost use Rattle.kt_direct_values.specs.Forms.{fault_form, value_form};
ghost use Rattle.kt_values.specs.Heap.{text_or_null};
ghost use Rattle.kt_values.specs.Throwables as spec;
ghost use Rattle.kt_values.specs.Values as v;
ghost use Rattle.std.specs.Fmt.{signed_decimal};
ghost use Rattle.std.specs.Prelude.{◌≡◌, IfOk};

use crate::ends::Fault;
use crate::texts::{ascii_text, int_text};
use crate::values::DirectValue;
use kt_types_builtins::BuiltInThrowable;
use std::alloc::{AllocError, Global};

/// The class that is thrown.
pub fn thrown_class(fault: Fault) -> BuiltInThrowable
    ensures { result ≡ spec.thrown_class (fault_form fault) }
{
    match fault {
        Fault::ZeroDivisor => BuiltInThrowable::ArithmeticException,
        Fault::ArrayIndex(_) => BuiltInThrowable::ArrayIndexOutOfBoundsException,
        Fault::TextIndex(_) => BuiltInThrowable::StringIndexOutOfBoundsException,
        Fault::NegativeSize(_) => BuiltInThrowable::NegativeArraySizeException,
        Fault::FailedCast => BuiltInThrowable::ClassCastException,
        Fault::NullAsserted => BuiltInThrowable::NullPointerException,
        Fault::TextTooLong => BuiltInThrowable::IllegalArgumentException,
        Fault::AlreadyResumed => BuiltInThrowable::IllegalStateException,
    }
}

/// A text of ASCII bytes as a value.
fn ascii_value(alloc: Global, bytes: &[u8]) -> Result<DirectValue, AllocError>
    ensures { IfOk result (λ x. value_form x ≡ v.text bytes.now) }
{
    Ok(DirectValue::Text(ascii_text(alloc, bytes)?))
}

/// A number in decimal as a value.
fn int_value(alloc: Global, n: i32) -> Result<DirectValue, AllocError>
    ensures { IfOk result (λ x. value_form x ≡ v.text (signed_decimal n)) }
{
    Ok(DirectValue::Text(int_text(alloc, n)?))
}

/// The message, or null.
pub fn fault_message(alloc: Global, fault: Fault) -> Result<DirectValue, AllocError>
    ensures { IfOk result (λ x. value_form x ≡ text_or_null (spec.fault_message (fault_form fault))) }
{
    match fault {
        Fault::ZeroDivisor => ascii_value(alloc, b"/ by zero"),
        Fault::ArrayIndex(i) => int_value(alloc, i),
        Fault::TextIndex(i) => int_value(alloc, i),
        Fault::NegativeSize(n) => int_value(alloc, n),
        Fault::FailedCast => Ok(DirectValue::Null),
        Fault::NullAsserted => Ok(DirectValue::Null),
        Fault::TextTooLong => ascii_value(alloc, b"text too long"),
        Fault::AlreadyResumed => ascii_value(alloc, b"Already resumed"),
    }
}
