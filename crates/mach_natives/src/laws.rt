//! Laws of the tables, each the contract of a function that does nothing.

ghost use Rattle.mach_natives.specs.Names.{NamedAlike};

/// Each method without code stands where its class lists a method of its name.
pub fn named_alike()
    ensures { NamedAlike }
{}
