//! Laws of whole documents.

ghost use Rattle.tocmark_read_back_laws.specs.Documents.{AgreedLayoutsAreReadBack, LayoutsAreReadBack, ListedDocumentsAreReadBack, ShortDocumentsAreOfThreeKinds, SpacedParagraphsKeepTheirTags, WholeDocumentsAreReadBack};

/// The core reader finds just the events of a tree of blocks in the tree's layout, with neighbouring texts joined.
///
/// It finds no label that is defined or unresolved. The reader that knows all names of character references finds the same,
/// with the same ranges. The leaves of the tree are paragraphs of plain lines, headings of one plain line, thematic breaks,
/// and fenced code of ASCII lines without tabs. They are in block quotes, to any depth. The law holds under all flags. The
/// options name `*` or `_` for emphasis, and backticks or tildes for fences. The layout has fewer than 2^61 - 3 bytes.
pub fn layouts_are_read_back()
    ensures { LayoutsAreReadBack }
{}

/// The writer refuses no event of such a document, and the texts that it hands join to one in which both readers find just
/// the document's events.
///
/// The law holds over every reader that the writer is given. The options don't ask that plain blocks be checked.
pub fn whole_documents_are_read_back()
    ensures { WholeDocumentsAreReadBack }
{}

/// The core reader finds just the events of a tree of blocks with bullet lists in the tree's layout, if it finds the blocks
/// that CommonMark declares of the layout.
///
/// Quotes, lists and their items hold blocks of any kind, to any depth. A list has an item, and isn't one item with one
/// paragraph alone. No paragraph is directly in an item of a tight list, because a reader leaves out the tags of such a
/// paragraph. A list is tight if it has one item and the options ask for no empty line between the blocks of that item. The
/// options name `*`, `-` or `+` for lists. No thematic break comes first in an item of a list of asterisks that is in a list
/// of hyphens. All else is as `layouts_are_read_back` says.
pub fn agreed_layouts_are_read_back()
    ensures { AgreedLayoutsAreReadBack }
{}

/// The writer refuses no event of such a document. The texts that it hands join to one in which both readers find just the
/// document's events, if the layout is of one of three kinds.
///
/// These are the kinds of `quotes_are_declared`, `lists_are_declared` and `nested_lists_are_declared`, and a test decides each:
/// `is_covered`, `has_one_line_blocks` and `has_plain_lists`. Texts of the last kind have paragraphs, headings, thematic breaks
/// and lists in lists, but no quotes and no code. The options don't ask that plain blocks be checked.
pub fn listed_documents_are_read_back()
    ensures { ListedDocumentsAreReadBack }
{}

/// No paragraph is directly in an item of a tight list of a layout, if the options ask for an empty line after headings and
/// thematic breaks.
///
/// So the premise of `agreed_layouts_are_read_back` and `listed_documents_are_read_back` holds under the default options.
pub fn spaced_paragraphs_keep_their_tags()
    ensures { SpacedParagraphsKeepTheirTags }
{}

/// The layout of a document of blocks of one line each is of one of the three kinds of `listed_documents_are_read_back`.
///
/// These blocks are headings, thematic breaks and paragraphs of one line, and bullet lists. Each item of a list has a heading or
/// a paragraph of one line alone. The options name `*` or `_` for emphasis, backticks or tildes for fences, and `*`, `-` or `+`
/// for lists. The layout has fewer than 2^64 bytes.
pub fn short_documents_are_of_three_kinds()
    ensures { ShortDocumentsAreOfThreeKinds }
{}
