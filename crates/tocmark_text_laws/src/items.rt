//! Laws of list items in every text.

ghost use Rattle.tocmark_text_laws.specs.Items.{MarksMakeAnItem, SomeItems, SomeMakeNoItem};

/// With a list marker in front of the first line of a text, and as many columns of spaces in front of each other line, its CommonMark
/// blocks are in a list with one item. These are the standard's rules for list items that begin with ink or with indented code (5.2,
/// rules 1, 2 and 4), but for lazy lines and tabs.
///
/// A marker is `-`, `+`, `*`, or one to nine digits and `.` or `)`. Up to three spaces can be in front of it, and one to four are after
/// it. An empty line can stay empty. Each block keeps what it is, what is in it, and the bytes of its lines with their endings. The
/// definitions of links stay the same, too. The text begins with a byte that is neither a space nor a line ending. After a marker with
/// one space it can also begin with indented code. It has no tab. The marker, the spaces after it and the first line aren't a thematic
/// break.
pub fn marks_make_an_item()
    ensures { MarksMakeAnItem }
{}

/// A list with one item is loose if a blank line is between two blocks that are directly in the item, as five examples show.
pub fn some_texts_make_an_item()
    ensures { SomeItems }
{}

/// Four texts aren't in one item, so the premises are needed: a text that begins with a space, one that begins with a line ending, one
/// that makes a thematic break of its marker, and one after ten digits.
pub fn some_texts_make_no_item()
    ensures { SomeMakeNoItem }
{}
