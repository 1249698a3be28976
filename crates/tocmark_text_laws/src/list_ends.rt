//! Laws of a text that ends with a list, and of another text after it.

ghost use Rattle.tocmark_text_laws.specs.ListEnds.{AListEnds, AListEndsAtOnce, SomeListsGoOn};
ghost use Rattle.tocmark_text_laws.specs.NearMargin.{AListEndsNearMargin, SomeTextsNearMargin};

/// A list that is in no container ends before an empty line and a text that begins at the margin, unless that text begins with an
/// item of the same sort: with the same bullet, or with a number and the same byte after it. Then the CommonMark blocks are those of
/// the first text, and then those of the other one. The same holds for the definitions of links. Each block keeps its kind, its
/// content, and the bytes of its lines with their endings. The list is loose if it is loose in the first text alone.
///
/// The first text ends with a line feed, and an empty line ends the leaf that is open after it: a paragraph, HTML of the kinds that end
/// at an empty line, or any leaf in a quote.
pub fn a_list_ends()
    ensures { AListEnds }
{}

/// The same holds without an empty line, whatever leaf is open, but for a paragraph. If one is open, the other text begins a container,
/// a heading, a thematic break, fenced code, or HTML of the kinds that end a paragraph. Else the paragraph goes on.
pub fn a_list_ends_at_once()
    ensures { AListEndsAtOnce }
{}

/// A list also ends before a text that begins after one space, for example with the block quote ` > q`. An item continues only in
/// lines that are indented by two columns or more.
pub fn a_list_ends_near_the_margin()
    ensures { AListEndsNearMargin }
{}

/// A list ends before a quote and before a paragraph that are after one space. A quote after two spaces is in its item.
pub fn some_texts_are_near_the_margin()
    ensures { SomeTextsNearMargin }
{}

/// A list goes on after an empty line before an item of the same sort, and before a line that is indented as the item's text is. Where
/// fenced code is open in an item, the empty line is a line of the code. In these examples the premises don't hold, in others they do.
pub fn some_lists_go_on()
    ensures { SomeListsGoOn }
{}
