//! Laws of documents of headings, paragraphs, thematic breaks and fenced code.

ghost use Rattle.tocmark_laws.specs.Documents.{DocumentsAreReadBack, PlainDocumentsAreReadBack};

/// For a list of headings and paragraphs of one plain line each, in any number of texts, the texts that are handed
/// join to one that the core reader reads as exactly these blocks, merged, with no labels.
pub fn documents_are_read_back()
    ensures { DocumentsAreReadBack }
{}

/// For a list of paragraphs of plain lines, a text for each with a soft break between two, of headings of one
/// plain line, of thematic breaks, and of fenced code of ASCII lines, the texts that are handed join to one that
/// the core reader reads as exactly these blocks, merged, with no labels: under all flags, whatever reader is
/// given, with `*` or `_` for emphasis and backticks or tildes for fences, if the options don't ask that plain
/// blocks be checked.
pub fn plain_documents_are_read_back()
    ensures { PlainDocumentsAreReadBack }
{}
