//! Laws of the events of texts, and of the steps from blocks to events.

ghost use Rattle.tocmark_standard_laws.specs.CoveredExamples.{ExamplesAreCovered};
ghost use Rattle.tocmark_standard_laws.specs.CoveredTexts.{AgreedTextsAreReadAsDeclared, CoveredTextsAreReadAsDeclared};
ghost use Rattle.tocmark_standard_laws.specs.Ended.{DeclaredEventsAreSaid, NodesAreEmitted};
ghost use Rattle.tocmark_standard_laws.specs.SaidBlocks.{BlocksSayTheirTree};

/// The reader's blocks say, one after the other, what their tree says, in every text.
///
/// What is said is each container and each inline, with the number of containers that it is in.
pub fn blocks_say_their_tree()
    ensures { BlocksSayTheirTree }
{}

/// The declared events of every text are those of what its declared blocks say: a container ends before what isn't deeper.
pub fn declared_events_are_said()
    ensures { DeclaredEventsAreSaid }
{}

/// The events that the reader makes of nodes are those of what the nodes show.
pub fn nodes_are_emitted()
    ensures { NodesAreEmitted }
{}

/// If the reader finds the blocks and the definitions of links of a text that CommonMark declares, it reads the declared events.
///
/// The text is UTF-8, in fewer than 2^62 bytes. It has no tab, no carriage return and no U+0000. It doesn't matter how texts and
/// HTML are cut into events.
pub fn agreed_texts_are_read_as_declared()
    ensures { AgreedTextsAreReadAsDeclared }
{}

/// The events of a text are those that CommonMark declares: paragraphs and headings with their inlines, code, HTML, thematic
/// breaks, quotes and lists.
///
/// It is a text of `quotes_are_declared`, `lists_are_declared` or `nested_lists_are_declared`, UTF-8, in fewer than 2^62 bytes. It doesn't matter how texts
/// and HTML are cut into events. This is such a text (`examples_are_covered`):
///
/// ```text
/// # A *title*
///
/// > Some `code` and [a link][a]
/// with a lazy line.
///
/// [a]: /b "c"
/// ```
pub fn covered_texts_are_read_as_declared()
    ensures { CoveredTextsAreReadAsDeclared }
{}

/// Three texts are such: one with a heading, a paragraph in a block quote, and a definition of a link, one with a list of items of
/// one line, and one with a list in a list.
pub fn examples_are_covered()
    ensures { ExamplesAreCovered }
{}
