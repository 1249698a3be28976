//! Laws of contents.

ghost use Rattle.tocmark_inline_laws.specs.Statement.{ContentsAreReadAsDeclared, DefinitionsLeadAsDeclared, InlinesAreLocal};

/// Every content is read as CommonMark declares it (chapter 6), with every set of labels.
pub fn contents_are_read_as_declared()
    ensures { ContentsAreReadAsDeclared }
{}

/// A content is read the same, wherever its leaf is, if the labels lead to the same (3.1).
pub fn inlines_are_local()
    ensures { InlinesAreLocal }
{}

/// What the reader collects of a document's definitions leads to what they say (4.7). So the first law holds with them.
pub fn definitions_lead_as_declared()
    ensures { DefinitionsLeadAsDeclared }
{}
