//! Laws of the definitions, each the contract of a function that does nothing.

ghost use Rattle.jvm_pool.specs.Laws.{KeptIndices, MentionsStand, OneDescriptor, OneIndex, OneOrder, OneText, PartsStand};

/// In modified UTF-8 no two texts have the same spelling.
pub fn one_text()
    ensures { OneText }
{}

/// No two descriptors have the same spelling.
pub fn one_descriptor()
    ensures { OneDescriptor }
{}

/// The entries of a file that stand in the order of their first mention, each mentioned, are exactly those that a pool
/// grows by these mentions.
pub fn one_order()
    ensures { OneOrder }
{}

/// A pool that grows keeps the indices that its entries have.
pub fn kept_indices()
    ensures { KeptIndices }
{}

/// In a pool that grew from mentions each entry has one index, at which it starts.
pub fn one_index()
    ensures { OneIndex }
{}

/// In a pool that grew from mentions each entry that was mentioned has an index.
pub fn mentions_stand()
    ensures { MentionsStand }
{}

/// In a pool that grew from mentions each part of an entry that has an index has one too.
pub fn parts_stand()
    ensures { PartsStand }
{}
