//! Examples of the declaration. The contract of each function is a table, and the prover computes each row of it. The functions
//! do nothing.

ghost use Rattle.tocmark_commonmark.specs.Examples.{AreRight};
ghost use Rattle.tocmark_commonmark.specs.InlineExamples.{HaveInlines};
ghost use Rattle.tocmark_commonmark.specs.ExamplesOfEmphasis.{emphases};
ghost use Rattle.tocmark_commonmark.specs.ExamplesOfItems.{items};
ghost use Rattle.tocmark_commonmark.specs.ExamplesOfLeaves.{leaves};
ghost use Rattle.tocmark_commonmark.specs.ExamplesOfLinks.{links};
ghost use Rattle.tocmark_commonmark.specs.ExamplesOfLists.{lists};
ghost use Rattle.tocmark_commonmark.specs.ExamplesOfQuotes.{quotes};
ghost use Rattle.tocmark_commonmark.specs.ExamplesOfRawHtml.{raw_html};
ghost use Rattle.tocmark_commonmark.specs.ExamplesOfTabs.{tabs};
ghost use Rattle.tocmark_commonmark.specs.ExamplesOfTexts.{texts};

/// Tabs, line endings and U+0000 (chapter 2).
pub fn tabs_are_right()
    ensures { AreRight tabs }
{}

/// Paragraphs, thematic breaks, headings, code, HTML, definitions (chapter 4).
pub fn leaves_are_right()
    ensures { AreRight leaves }
{}

/// Block quotes, and lines that continue them lazily (5.1).
pub fn quotes_are_right()
    ensures { AreRight quotes }
{}

/// Items: their width, what they begin with, what ends them (5.2).
pub fn items_are_right()
    ensures { AreRight items }
{}

/// Lists, tight and loose, one in another (5.3).
pub fn lists_are_right()
    ensures { AreRight lists }
{}

/// Escapes, character references, code spans and line breaks (2.4, 2.5, 6.1, 6.7 to 6.9).
pub fn texts_are_right()
    ensures { HaveInlines texts }
{}

/// Emphasis and strong emphasis (6.2).
pub fn emphases_are_right()
    ensures { HaveInlines emphases }
{}

/// Links and images (6.3 and 6.4).
pub fn links_are_right()
    ensures { HaveInlines links }
{}

/// Autolinks and raw HTML (6.5 and 6.6).
pub fn raw_html_are_right()
    ensures { HaveInlines raw_html }
{}
