//! Laws of texts with lists.

ghost use Rattle.tocmark_block_laws.specs.Lists.{ListsAreDeclared, NestedListsAreDeclared};

/// The blocks of a text whose blocks have one line each, in lists or not, and its definitions of links, are those that CommonMark
/// declares (chapters 4 and 5). Blank lines can be between the items of a list, so some of the lists are loose.
///
/// `has_one_line_blocks` is a test for such texts. Each line is blank, or begins a heading, a thematic break, a paragraph or an
/// item, and is indented less than the text of the item above. An item has one of these leaves in it, or nothing. A paragraph
/// outside lists comes where none is open, and before a blank line. The text has no tab, no carriage return and no U+0000. This
/// is such a text, with a tight list and a loose one:
///
/// ```text
/// # a
/// - b
///  - # c
/// ***
/// 1. [d]: e
///
/// 2.
///
/// f
/// ```
pub fn lists_are_declared()
    ensures { ListsAreDeclared }
{}

/// The blocks of a text of paragraphs, headings of both forms, thematic breaks and lists, and its definitions of links, are those
/// that CommonMark declares (chapters 4 and 5). Lists can be in items, to any depth.
///
/// `has_plain_lists` is a test for such texts. Each line is blank, or begins a heading, a thematic break, a paragraph or an item,
/// or continues or underlines a paragraph. A line that is indented as the text of the item above belongs to that item. No line
/// continues a paragraph of an item to which it doesn't belong. An item begins with a heading, a thematic break or a paragraph. A
/// paragraph defines no link. The text has no tab, no carriage return and no U+0000. This is such a text:
///
/// ```text
/// a
/// b
/// - c
///   d
///   - e
///
///     f
///   - # g
///
///   h
///   ---
/// 1. i
/// ***
/// ```
pub fn nested_lists_are_declared()
    ensures { NestedListsAreDeclared }
{}
