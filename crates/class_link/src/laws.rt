//! Laws of linking, each the contract of a function that does nothing.

ghost use Rattle.class_link.specs.Laws.{NotBoth, OneLinked, OneRefusal};

/// Classes are linked in one way.
pub fn one_linked()
    ensures { OneLinked }
{}

/// Classes that are linked aren't refused.
pub fn not_both()
    ensures { NotBoth }
{}

/// One thing is told of classes that are refused.
pub fn one_refusal()
    ensures { OneRefusal }
{}
