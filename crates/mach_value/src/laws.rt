//! Laws of lumps, each the contract of a function that does nothing.

ghost use Rattle.mach_value.specs.Laws.{ArrivesAsItLeft, LumpsArePrefixForms, OneLump};

/// A value has one lump at most.
pub fn one_lump()
    ensures { OneLump }
{}

/// What leaves is a node, then the lumps of its fields.
pub fn lumps_are_prefix_forms()
    ensures { LumpsArePrefixForms }
{}

/// What is imported leaves again as the lump that came.
pub fn arrives_as_it_left()
    ensures { ArrivesAsItLeft }
{}
