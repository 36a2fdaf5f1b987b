//! Laws of verified classes, each the contract of a function that does nothing.

ghost use Rattle.class_verify_rules.specs.Examples.{AreRejected, IsAccepted};
ghost use Rattle.class_verify_rules.specs.Laws.{EachBegins, EachIsTyped, NotBoth, OneRefusal};

/// Each instruction of verified classes has a frame under which it is typed, and keeps the turn rule.
pub fn each_is_typed()
    ensures { EachIsTyped }
{}

/// Each method with code of verified classes begins with an instruction, has room for its arguments, and its first
/// frame fits into the one that is given there.
pub fn each_begins()
    ensures { EachBegins }
{}

/// Classes are rejected at one place at most.
pub fn one_refusal()
    ensures { OneRefusal }
{}

/// Classes that are rejected aren't verified.
pub fn not_both()
    ensures { NotBoth }
{}

/// Small classes are rejected where they break a rule: a return without a tick before it at the return, a *pop* of
/// nothing and a *goto* without a frame at themselves.
pub fn examples_rejected()
    ensures { AreRejected }
{}

/// A class whose `main` ticks and returns is verified.
pub fn example_accepted()
    ensures { IsAccepted }
{}
