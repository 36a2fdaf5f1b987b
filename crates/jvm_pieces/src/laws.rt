//! Laws of pieces, each the contract of a function that does nothing.

ghost use Rattle.jvm_pieces.specs.Laws.{OneSpelling, WritesInParts, WrittenSpells};

/// What a writer has at the end spells the pieces that it took.
pub fn written_spells()
    ensures { WrittenSpells }
{}

/// Pieces have one spelling: one pool, and one list of bytes behind it.
pub fn one_spelling()
    ensures { OneSpelling }
{}

/// A writer that takes pieces in two parts takes all of them.
pub fn writes_in_parts()
    ensures { WritesInParts }
{}
