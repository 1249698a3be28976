//! Laws of how documents are laid out in lines.

ghost use Rattle.tocmark_document_laws.specs.LaidOut.{DocumentsAreLaidOut};

/// The texts that the writer hands for a tree of blocks join to the tree's layout, and it refuses no event.
///
/// The leaves of the tree are paragraphs of plain lines, headings of one plain line, thematic breaks, and fenced code of
/// ASCII lines. They are in block quotes and loose bullet lists, to any depth. The law holds under all flags and over
/// every reader. The options name `*` or `_` for emphasis, backticks or tildes for fences, and `*`, `-` or `+` for
/// bullets. They don't ask that plain blocks be checked.
pub fn documents_are_laid_out()
    ensures { DocumentsAreLaidOut }
{}
