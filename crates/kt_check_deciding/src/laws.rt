//! The laws of deciding. A body has nothing to do: the contract is the law.

ghost use Rattle.kt_check_deciding.specs.Laws.{Decided, OneOfTwo, PresentIsWithoutNull};

/// What comes of a file is what the rules say of it.
pub fn decided()
    ensures { Decided }
{}

/// Each file is typed or refused.
pub fn one_of_two()
    ensures { OneOfTwo }
{}

/// What `!= null` gives of a type is the type without null.
pub fn present_is_without_null()
    ensures { PresentIsWithoutNull }
{}
