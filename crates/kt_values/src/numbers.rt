//! Arithmetic of `Int` and `Long` where Rust's operators differ (JLS SE 8 §15.17 to §15.22).

ghost use Rattle.kt_values.specs.Numbers as spec;
ghost use Rattle.std.specs.Int.{w32, w64};
ghost use Rattle.std.specs.Prelude.{◌≡◌};

/// The quotient of two `Int`s, rounded towards zero; none for a zero divisor. The least number divided by -1 is itself.
pub fn int_quotient(dividend: i32, divisor: i32) -> Option<i32>
    ensures { result ≡ spec.quotient w32 dividend divisor }
{
    if divisor == 0 {
        None
    } else {
        Some(dividend.wrapping_div(divisor))
    }
}

/// What is left of a division of two `Int`s, with the sign of the dividend; none for a zero divisor.
pub fn int_remainder(dividend: i32, divisor: i32) -> Option<i32>
    ensures { result ≡ spec.remainder w32 dividend divisor }
{
    if divisor == 0 {
        None
    } else {
        Some(dividend.wrapping_rem(divisor))
    }
}

/// The quotient of two `Long`s, as that of two `Int`s.
pub fn long_quotient(numerator: i64, denominator: i64) -> Option<i64>
    ensures { result ≡ spec.quotient w64 numerator denominator }
{
    if denominator == 0 {
        None
    } else {
        Some(numerator.wrapping_div(denominator))
    }
}

/// What is left of a division of two `Long`s, as of two `Int`s.
pub fn long_remainder(numerator: i64, denominator: i64) -> Option<i64>
    ensures { result ≡ spec.remainder w64 numerator denominator }
{
    if denominator == 0 {
        None
    } else {
        Some(numerator.wrapping_rem(denominator))
    }
}

/// `shl` on an `Int`, by the low five bits of the count.
pub fn int_shifted_left(number: i32, count: i32) -> i32
    ensures { result ≡ spec.shifted_left w32 number count }
{
    number.wrapping_shl(count.cast_unsigned())
}

/// `shr` on an `Int`, by the low five bits of the count.
pub fn int_shifted_right(number: i32, count: i32) -> i32
    ensures { result ≡ spec.shifted_right w32 number count }
{
    number.wrapping_shr(count.cast_unsigned())
}

/// `ushr` on an `Int`, by the low five bits of the count.
pub fn int_shifted_right_unsigned(number: i32, count: i32) -> i32
    ensures { result ≡ spec.shifted_right_unsigned w32 number count }
{
    number
        .cast_unsigned()
        .wrapping_shr(count.cast_unsigned())
        .cast_signed()
}

/// `shl` on a `Long`, by the low six bits of the count.
pub fn long_shifted_left(number: i64, count: i32) -> i64
    ensures { result ≡ spec.shifted_left w64 number count }
{
    number.wrapping_shl(count.cast_unsigned())
}

/// `shr` on a `Long`, by the low six bits of the count.
pub fn long_shifted_right(number: i64, count: i32) -> i64
    ensures { result ≡ spec.shifted_right w64 number count }
{
    number.wrapping_shr(count.cast_unsigned())
}

/// `ushr` on a `Long`, by the low six bits of the count.
pub fn long_shifted_right_unsigned(number: i64, count: i32) -> i64
    ensures { result ≡ spec.shifted_right_unsigned w64 number count }
{
    number
        .cast_unsigned()
        .wrapping_shr(count.cast_unsigned())
        .cast_signed()
}

/// `toInt()` of a `Long`: its low 32 bits.
pub fn to_int(number: i64) -> i32
    ensures { result ≡ spec.to_int number }
{
    ((number.cast_unsigned() % 0x1_0000_0000) as u32).cast_signed()
}

/// `toChar()` of an `Int`: its low 16 bits.
pub fn to_character(number: i32) -> u16
    ensures { result ≡ spec.to_character number }
{
    (number.cast_unsigned() % 0x1_0000) as u16
}
