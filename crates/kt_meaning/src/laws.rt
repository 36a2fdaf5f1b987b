//! Laws of the meaning of units. A body has nothing to do: the contract is the law.

ghost use Rattle.kt_meaning.specs.Laws.{BoundIsNeverMet, CoursesAreWhole};

/// What a coroutine of a unit does has an end exactly where no event waits for an answer.
pub fn courses_are_whole()
    ensures { CoursesAreWhole }
{}

/// The bound by which calls and loops are defined is never met, since each of them takes a turn.
pub fn bound_is_never_met()
    ensures { BoundIsNeverMet }
{}
