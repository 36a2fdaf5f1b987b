//! Laws of the definitions, and worked rows. A body has nothing to do: the contract is the law.

ghost use Rattle.kt_values.specs.Laws.{DivisionRows, MadeIsFound, ShiftRows, WrittenIsRead};

/// An object that is made is found by its reference.
pub fn made_is_found()
    ensures { MadeIsFound }
{}

/// What is written into a slot is read there.
pub fn written_is_read()
    ensures { WrittenIsRead }
{}

/// Quotients round towards zero, remainders have the sign of the dividend, and the least number divided by -1 is
/// itself.
pub fn division_rows()
    ensures { DivisionRows }
{}

/// Shifts use the low bits of the count, and conversions keep low bits.
pub fn shift_rows()
    ensures { ShiftRows }
{}
