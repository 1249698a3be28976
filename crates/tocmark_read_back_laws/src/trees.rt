//! A law of the tree of a text's blocks.

ghost use Rattle.tocmark_read_back_laws.specs.Trees.{TreesAreBlocks};

/// Two definitions make a tree of the blocks that the reader finds: `read_tree` and `tree_told`. In every text, both trees are the
/// same.
pub fn trees_are_blocks()
    ensures { TreesAreBlocks }
{}
