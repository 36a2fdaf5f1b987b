//! Laws of formats, each the contract of a function that does nothing.

ghost use Rattle.jvm_class_formats.specs.Laws.{NumbersAreLawful};

/// Numbers of one, two and four bytes are read exactly where they are spelled, whatever rule they keep.
pub fn numbers_are_lawful()
    ensures { NumbersAreLawful }
{}
