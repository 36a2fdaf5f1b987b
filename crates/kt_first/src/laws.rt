//! Laws of the first subset, each the contract of a function that does nothing.

ghost use Rattle.kt_first.specs.Laws.{OneMeaning};

/// A text has one meaning.
pub fn one_meaning()
    ensures { OneMeaning }
{}
