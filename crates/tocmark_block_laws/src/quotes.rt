//! Laws of texts without lists.

ghost use Rattle.tocmark_block_laws.specs.Coverage.{StandardIsCovered};
ghost use Rattle.tocmark_block_laws.specs.Quotes.{QuotesAreDeclared};

/// The blocks of a text of leaf blocks and block quotes, and its definitions of links, are those that CommonMark declares
/// (chapter 4, and 5.1).
///
/// `is_covered` is a test for such texts. After its block quote markers, no line begins an item. The text has no tab, no carriage
/// return and no U+0000. If a line begins code or HTML there, the text ends with a line feed. This is such a text, with a lazy
/// line, a quote in a quote, and a definition in it:
///
/// ```text
/// > # a
/// > b
/// c
/// > > [d]: e
/// ```
pub fn quotes_are_declared()
    ensures { QuotesAreDeclared }
{}

/// 603 of the 652 examples of CommonMark 0.31.2 are texts of which `quotes_are_declared`, `lists_are_declared` or
/// `nested_lists_are_declared` speaks.
pub fn standard_is_covered()
    ensures { StandardIsCovered }
{}
