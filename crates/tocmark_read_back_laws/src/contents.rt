//! A law of the contents of paragraphs and headings.

ghost use Rattle.tocmark_read_back_laws.specs.Contents.{PlainContentsAreDeclared};

/// The inlines that CommonMark declares of plain lines are the texts that the lines mean, with a soft break between two.
///
/// Each part of the lines means itself by its neighbours: a byte that begins nothing, an escape, `&amp;` or `&#32;`.
pub fn plain_contents_are_declared()
    ensures { PlainContentsAreDeclared }
{}
