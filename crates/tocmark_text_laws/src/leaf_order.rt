//! Laws of the order of lines and inlines of leaves.

ghost use Rattle.tocmark_text_laws.specs.InlineNest.{InlinesNest, InlinesNestInTheirLeaf};
ghost use Rattle.tocmark_text_laws.specs.InlineOrder.{InlinesAreInOrder, SomeInlines};
ghost use Rattle.tocmark_text_laws.specs.LineOrder.{LinesOfLeavesAreInOrder};
ghost use Rattle.tocmark_text_laws.specs.SourceOrder.{InlinesAreInOrderInTheSource, InlinesFollowTheSource};

/// The lines of all CommonMark leaves of a text come one after the other, and don't overlap.
pub fn lines_of_leaves_are_in_order()
    ensures { LinesOfLeavesAreInOrder }
{}

/// The inlines of a leaf begin within its text, none before one that comes before it in the list. A text among them has a
/// byte, lies within the leaf's text, and ends before the next inline begins, or where it does. So it is whatever roles the
/// bytes have, so with any extensions.
pub fn inlines_are_in_order()
    ensures { InlinesAreInOrder }
{}

/// The inlines of three lists of roles, computed.
pub fn some_inlines_are_in_order()
    ensures { SomeInlines }
{}

/// In the source, too, no inline of a CommonMark leaf begins before one that comes before it, whatever roles the bytes have.
pub fn inlines_follow_the_source()
    ensures { InlinesFollowTheSource }
{}

/// In the source, the inlines of a CommonMark leaf are in order: none begins before one that comes before it, and a text
/// among them ends before the next one begins, or where it does.
pub fn inlines_are_in_order_in_the_source()
    ensures { InlinesAreInOrderInTheSource }
{}

/// In the source, the range of each inline of a CommonMark leaf lies in those of the inlines that contain it.
pub fn inlines_nest()
    ensures { InlinesNest }
{}

/// In the text of a CommonMark leaf, the range of each inline lies in those of the inlines that contain it.
pub fn inlines_nest_in_their_leaf()
    ensures { InlinesNestInTheirLeaf }
{}
