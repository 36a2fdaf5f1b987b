//! Laws of the definitions, each the contract of a function that does nothing.

ghost use Rattle.jvm_class_first.specs.Laws.{EntriesStand, OneClass, OneCode};

/// Code has one class file.
pub fn one_class()
    ensures { OneClass }
{}

/// Bytes are the class file of one list of steps at most.
pub fn one_code()
    ensures { OneCode }
{}

/// Each entry that a class file mentions is among its entries, and so is each part of one.
pub fn entries_stand()
    ensures { EntriesStand }
{}
