//! A law of how the layout of documents is read.

ghost use Rattle.tocmark_document_laws.specs.ReadBack.{LayoutsHaveTheirTrees};

/// The core reader finds just the blocks of a tree in the tree's layout, and no definitions of links. Each block is in
/// its quotes, and has its lines as they are written.
///
/// The leaves of the tree are paragraphs of plain lines, headings of one plain line, thematic breaks, and fenced code of
/// ASCII lines without tabs. They are in block quotes, to any depth. The law holds under all flags. The options name `*`
/// or `_` for emphasis, and backticks or tildes for fences. The layout has fewer than 2^61 - 3 bytes.
pub fn layouts_have_their_trees()
    ensures { LayoutsHaveTheirTrees }
{}
