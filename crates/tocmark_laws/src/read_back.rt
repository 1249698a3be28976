//! Laws of documents of one construct: what is handed for them is read as them.
//!
//! Each joins what the writer's definition hands for the events to what the readers' definition
//! reads. So it is under all flags, whatever reader is given, with `*` or `_` for emphasis, if the
//! options don't ask that plain blocks be checked. A line is one of words, as in `constructs`,
//! without a vertical bar.

ghost use Rattle.tocmark_laws.specs.ReadBack.{BreaksAreReadBack, CodeSpansAreReadBack};
ghost use Rattle.tocmark_laws.specs.ReadBack.{BulletListsAreReadBack, OrderedListsAreReadBack};
ghost use Rattle.tocmark_laws.specs.ReadBack.{FootnotesAreReadBack, TablesAreReadBack};
ghost use Rattle.tocmark_laws.specs.ReadBack.{QuotesAreReadBack, TasksAreReadBack};

/// For a paragraph of lines, a text for each with a soft or a hard break between two, exactly one
/// text is handed, and every syntax reads it as exactly this paragraph, with no labels.
pub fn hard_breaks_are_read_back()
    ensures { BreaksAreReadBack }
{}

/// For a quote, without a kind, of such a paragraph exactly one text is handed, and every syntax
/// reads it as exactly this quote, with no labels.
pub fn quotes_are_read_back()
    ensures { QuotesAreReadBack }
{}

/// For a paragraph of a code span exactly one text is handed, and every syntax reads it as exactly
/// this paragraph, with no labels, whatever marks emphasis. The code has characters from U+0020 to
/// U+007E but backticks, and no space at either end.
pub fn code_spans_are_read_back()
    ensures { CodeSpansAreReadBack }
{}

/// For a tight list without numbers, with a line as the only text of each item, exactly one text
/// is handed, and every syntax reads it as exactly this list, with no labels, if the options name
/// `-`, `+` or `*` for such lists.
pub fn bullet_lists_are_read_back()
    ensures { BulletListsAreReadBack }
{}

/// For such a list with numbers, the first below 1,000,000,000, exactly one text is handed, and
/// every syntax reads it as exactly this list, with no labels, if the options name `.` or `)` for
/// such lists, whether their numbers rise or not.
pub fn ordered_lists_are_read_back()
    ensures { OrderedListsAreReadBack }
{}

/// For a paragraph of a line and a reference to a footnote, and the footnote with a paragraph of a
/// line, the texts that are handed join to one that every syntax with footnotes reads as exactly
/// these events, if the options don't ask for more than two line feeds after a paragraph.
pub fn footnotes_are_read_back()
    ensures { FootnotesAreReadBack }
{}

/// For a table whose cells have a phrase each, as many in each row as in its header, the texts that
/// are handed join to one that every syntax with tables reads as exactly this table, with its
/// alignments. A phrase begins and ends with a letter or a digit.
pub fn tables_are_read_back()
    ensures { TablesAreReadBack }
{}

/// For a list of one task, whose line ends with a letter or a digit, the texts that are handed join
/// to one that every syntax with task lists reads as exactly this task, checked or not, if the
/// options name `-` for lists.
pub fn tasks_are_read_back()
    ensures { TasksAreReadBack }
{}
