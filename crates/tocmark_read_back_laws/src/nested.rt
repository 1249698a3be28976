//! Laws of whole documents with bullet lists in quotes and in items, to any depth.

ghost use Rattle.tocmark_read_back_laws.specs.Nested.{NestedDocumentsAreReadBack, NestedLayoutsAgree, NestedLayoutsAreReadBack, SpacedOptionsSpaceBlocks};

/// The core reader finds in the layout of a tree of blocks just the blocks that CommonMark declares of it.
///
/// The tree has paragraphs of plain lines, headings of one plain line, thematic breaks, fenced code, block quotes, and bullet lists.
/// Quotes and items hold blocks of any kind, to any depth. An item can be empty. A list has an item, and isn't one item with one
/// paragraph alone. No thematic break comes first in an item of a list of asterisks that is in a list of hyphens.
///
/// The blocks are spaced: an empty line is after the first block of each item, and after each list, if another block follows. The
/// layout has fewer than 2^59 - 1 bytes.
pub fn nested_layouts_agree()
    ensures { NestedLayoutsAgree }
{}

/// So the core reader finds just the tree's events in that layout, with neighbouring texts joined, and no label that is defined or
/// unresolved. The reader that knows all names of character references finds the same, with the same ranges.
pub fn nested_layouts_are_read_back()
    ensures { NestedLayoutsAreReadBack }
{}

/// The writer refuses no event of such a document, and the texts that it hands join to one in which both readers find just the
/// document's events. The options don't ask that plain blocks be checked.
pub fn nested_documents_are_read_back()
    ensures { NestedDocumentsAreReadBack }
{}

/// If the options ask for an empty line after headings and thematic breaks, as the default options do, and each item has a block, the
/// blocks are spaced.
pub fn spaced_options_space_blocks()
    ensures { SpacedOptionsSpaceBlocks }
{}
