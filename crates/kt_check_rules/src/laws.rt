//! The laws of typing. A body has nothing to do: the contract is the law.

ghost use Rattle.kt_check_rules.specs.Laws.{CutsHaveTyping, NotBoth, OnePlace, OneTyping, OneUnit};

/// An expression has at most one typing at a place and for a use.
pub fn one_typing()
    ensures { OneTyping }
{}

/// A file has at most one typed unit.
pub fn one_unit()
    ensures { OneUnit }
{}

/// A file is refused at one place at most.
pub fn one_place()
    ensures { OnePlace }
{}

/// A file that has a typed unit and `main` isn't refused.
pub fn not_both()
    ensures { NotBoth }
{}

/// Where bodies have a typing, so have those that are cut behind a direct statement.
pub fn cuts_have_typing()
    ensures { CutsHaveTyping }
{}
