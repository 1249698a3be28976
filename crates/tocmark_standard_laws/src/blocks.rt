//! A law of how blocks are in one another.

ghost use Rattle.tocmark_standard_laws.specs.Nesting.{BlocksAreNested};

/// In every text, each block is in the containers before it that its depth names (3.2).
///
/// All blocks are CommonMark's, items are directly in lists, and leaves have no blocks in them. A block says which list it counts
/// for, so that the paragraphs of a tight list are known.
pub fn blocks_are_nested()
    ensures { BlocksAreNested }
{}
