//! Laws of the definitions, each the contract of a function that does nothing.

ghost use Rattle.kt_base.specs.Text.{RoundTrip};
ghost use Rattle.kt_base.specs.World.{CoroutinesAscend, PlaysLegally};

/// A text of characters, as UTF-16 and then as UTF-8, is the text as UTF-8.
pub fn utf8_of_utf16()
    ensures { RoundTrip }
{}

/// The world of each list of choices is legal.
pub fn worlds_are_legal()
    ensures { PlaysLegally }
{}

/// The coroutines of each legal history, and so of each world, are in ascending order.
pub fn coroutines_ascend()
    ensures { CoroutinesAscend }
{}
