//! Laws of a text that ends with a list, and of items for that list after it.

ghost use Rattle.tocmark_text_laws.specs.OneMoreItem.{ItemsLeaveTheirList, OneMoreItem, SomeGetItems};

/// A list that is in no container goes on after an empty line, if the text after it begins at the margin with an item of the same sort:
/// with the same bullet, or with a number and the same byte after it (CommonMark 5.3). The CommonMark blocks of the whole are those of the
/// first text and of the other one, but the last list of the first and the first list of the other are one list. This list is loose.
/// The definitions of links are those of the first text, and then those of the other one. What is open after the other text is open
/// after the whole: a list with the same markers, and a leaf that an empty line ends or doesn't end.
///
/// The first text ends with a line feed, and an empty line ends the leaf that is open after it: a paragraph, HTML of the kinds that end
/// at an empty line, or any leaf in a quote. The item can be empty, and more items and other blocks can come after it.
pub fn one_more_item()
    ensures { OneMoreItem }
{}

/// After an item that a marker makes of a text, a list with this marker is open. An empty line ends the leaf that is open then if it
/// ends the one that is open after the text.
pub fn items_leave_their_list()
    ensures { ItemsLeaveTheirList }
{}

/// Eight lists, computed: one item more, an empty one, one after an empty one, several with a paragraph after them, a numbered one, and
/// one after fenced code in a quote. A list doesn't become loose if the empty line is in fenced code, and it ends before a thematic break.
pub fn some_lists_get_items()
    ensures { SomeGetItems }
{}
