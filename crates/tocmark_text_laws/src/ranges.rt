//! Laws of where the blocks and inlines of every text are, that blocks nest and are in order, and which of them are in which.

ghost use Rattle.tocmark_text_laws.specs.Housed.{BlocksAreHoused};
ghost use Rattle.tocmark_text_laws.specs.InlinePlaces.{EventsAreInPlace, InlinesAreInPlace, InlinesLieInTheirLines, ShortEventsAreInPlace};
ghost use Rattle.tocmark_text_laws.specs.Nested.{BlocksNest};
ghost use Rattle.tocmark_text_laws.specs.Ordered.{BlocksAreInOrder};
ghost use Rattle.tocmark_text_laws.specs.Ranges.{BlockEventsAreInPlace, BlocksAreInPlace, LinesAreInPlace};

/// The range of each CommonMark block of a text is in order, within the text and on boundaries of characters. So a reader
/// hands it out as it is, and not as 0..0.
pub fn blocks_are_in_place()
    ensures { BlocksAreInPlace }
{}

/// Of each line of a leaf of a text, the texts that it has as code or HTML are in place, too.
pub fn lines_are_in_place()
    ensures { LinesAreInPlace }
{}

/// So what `CoreReader` reads has the range of each block, and of each line of HTML, as it is: the events of a text are
/// those of these nodes (`reading_of`).
pub fn block_events_are_in_place()
    ensures { BlockEventsAreInPlace }
{}

/// The range of each CommonMark block of a text lies in those of the blocks that contain it.
pub fn blocks_nest()
    ensures { BlocksNest }
{}

/// The CommonMark blocks of a text are in order: one that comes after another, and isn't deeper, begins where that ends
/// or after it. So the blocks of a page, and those of each container, come one after the other and don't overlap.
pub fn blocks_are_in_order()
    ensures { BlocksAreInOrder }
{}

/// Each block of a text is one that CommonMark has, and is in containers alone: quotes, lists and items. Items, and nothing
/// else, are directly in lists.
pub fn blocks_are_housed()
    ensures { BlocksAreHoused }
{}

/// The range of each inline of a CommonMark leaf is in order, within the text and on boundaries of characters. So a reader
/// hands it out as it is, and not as 0..0.
pub fn inlines_are_in_place()
    ensures { InlinesAreInPlace }
{}

/// `CoreReader` hands out the range of each block and inline, and of each line of code or HTML, as it is. So none becomes
/// 0..0. The depth of each block and the length of its text must be numbers of 64 bits.
pub fn events_are_in_place()
    ensures { EventsAreInPlace }
{}

/// No range becomes 0..0 if the text has fewer than 2^30 bytes: then `events_are_in_place` holds of it.
pub fn short_events_are_in_place()
    ensures { ShortEventsAreInPlace }
{}

/// The inlines of a CommonMark leaf lie between where its first line begins and where its last line ends.
pub fn inlines_lie_in_their_lines()
    ensures { InlinesLieInTheirLines }
{}
