//! Laws of what CommonMark declares of a layout.

ghost use Rattle.tocmark_layout_laws.specs.Declared.{LayoutsAreDeclared, LayoutsWithListsAreDeclared};

/// The blocks that CommonMark declares of a tree's layout are that tree (chapters 4 and 5).
///
/// The leaves of the tree are paragraphs of plain lines, headings of one plain line, thematic breaks, and fenced code of
/// ASCII lines. They are in block quotes, to any depth. The law holds under all flags. The options name `*` or `_` for
/// emphasis, and backticks or tildes for fences. The layout has fewer than 2^64 bytes.
pub fn layouts_are_declared()
    ensures { LayoutsAreDeclared }
{}

/// The same of trees with bullet lists: quotes, lists and their items hold blocks of any kind, to any depth.
///
/// A list has an item, and isn't one item with one paragraph alone. The options also name `*`, `-` or `+` for lists. No
/// thematic break comes first in an item of a list of asterisks that is in a list of hyphens: CommonMark reads the marker
/// and the thematic break as one.
pub fn layouts_with_lists_are_declared()
    ensures { LayoutsWithListsAreDeclared }
{}
