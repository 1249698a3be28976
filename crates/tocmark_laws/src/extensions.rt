//! Laws of the extended reader: the exact events of texts of one kind, each with one construct.
//!
//! They speak of `reading_of`, the definition of what `ExtendedReader` reads under a syntax. Each needs the construct's
//! own extension; all others may be on or off. They don't say how the events are found, so they tie an extension to its
//! rule, and not to the reader's code. A phrase has no marks, and a letter or a digit at either end.

ghost use Rattle.tocmark_laws.specs.Extensions.{AttributesAreRead, FormulasAreRead, FrontMatterIsRead, ScriptsAreRead, StruckPhrasesAreRead, TasksAreRead, WordsAreRead};
ghost use Rattle.tocmark_laws.specs.Footnotes.{FootnotesAreRead};
ghost use Rattle.tocmark_laws.specs.PlainDefinitions.{DefinitionListsAreRead};
ghost use Rattle.tocmark_laws.specs.PlainTables.{TablesAreRead};
ghost use Rattle.tocmark_laws.specs.QuoteKinds.{QuoteKindsAreRead};

/// Under every syntax, lines of words are a paragraph with a text for each line, with the ranges that `CoreReader`
/// gives. Each line begins with a letter, and none of its characters, from U+0020 to U+007E, is a mark.
pub fn words_are_read()
    ensures { WordsAreRead }
{}

/// Under each syntax with metadata of that kind, a text of lines between `---`, or between `+++`, is metadata with these
/// lines as its text. No line begins with a space, `-`, `+` or `.`.
pub fn front_matter_is_read()
    ensures { FrontMatterIsRead }
{}

/// Under each syntax with mathematics, a formula between dollar signs is mathematics with just this text. It has no
/// dollar sign, backslash or brace, and no space at either end. Other marks may be in it, as in `$a_1 * b$`.
pub fn formulas_are_read()
    ensures { FormulasAreRead }
{}

/// Under each syntax with strikethrough, a phrase between two tildes on either side is struck through.
pub fn struck_phrases_are_read()
    ensures { StruckPhrasesAreRead }
{}

/// Under each syntax with subscripts, a phrase between tildes, as `~two~`, is a subscript; under each syntax with
/// superscripts, a phrase between carets, as `^two^`, is a superscript.
pub fn scripts_are_read()
    ensures { ScriptsAreRead }
{}

/// Under each syntax with attributes of headings, a name after a heading's phrase, as in `# two words {#name}`, is the
/// heading's id. The name has letters and digits alone.
pub fn attributes_are_read()
    ensures { AttributesAreRead }
{}

/// Under each syntax with task lists, an item of a box and a phrase, as `- [x] two words` or `- [ ] two words`, is a
/// tight list with this one task.
pub fn tasks_are_read()
    ensures { TasksAreRead }
{}

/// Under each syntax with tables, a row of cells, a row of dashes and further rows, each on a line, are a table with
/// these alignments and cells. Each row begins with a bar and has one after each cell, and all have as many cells. A
/// cell is a phrase without bars, and any number of spaces may be around it, as in `| two words |one|`.
pub fn tables_are_read()
    ensures { TablesAreRead }
{}

/// Under each syntax with footnotes, words with a reference after them, a blank line, and the
/// footnote with words, as in `two words[^a]` and `[^a]: more words`, are a paragraph with the
/// reference, and the footnote with a paragraph. The label has at most 998 characters. None of them
/// is a mark or a space.
pub fn footnotes_are_read()
    ensures { FootnotesAreRead }
{}

/// Under each syntax with definition lists, a line of words and another one after `: `, as `Term`
/// and `: two words`, are a list of this title and this definition, with a text in each.
pub fn definition_lists_are_read()
    ensures { DefinitionListsAreRead }
{}

/// Under each syntax with kinds of quotes, a line with a kind and a line of words after `> `, as
/// `> [!NOTE]` and `> two words`, are a quote of this kind with a paragraph.
pub fn quote_kinds_are_read()
    ensures { QuoteKindsAreRead }
{}
