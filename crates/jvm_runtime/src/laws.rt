//! Laws of the table, each the contract of a function that does nothing.

ghost use Rattle.jvm_runtime.specs.Laws.{OneName};

/// The class of each name is the one that has it: no two have the same name, and none is missing.
pub fn one_name()
    ensures { OneName }
{}
