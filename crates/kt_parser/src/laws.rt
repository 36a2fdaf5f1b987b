//! Laws of sources, each the contract of a function that does nothing.

ghost use Rattle.kt_parser.specs.Laws.{OneSourceRefusal, OneSourceTree, TreeExcludesRefusal, TreeOrRefusal};

/// A source has one tree at most.
pub fn one_source_tree()
    ensures { OneSourceTree }
{}

/// A source is refused in one way at most: with one kind, at one place.
pub fn one_source_refusal()
    ensures { OneSourceRefusal }
{}

/// A source that has a tree isn't refused.
pub fn tree_excludes_refusal()
    ensures { TreeExcludesRefusal }
{}

/// A source has a tree, or is refused.
pub fn tree_or_refusal()
    ensures { TreeOrRefusal }
{}
