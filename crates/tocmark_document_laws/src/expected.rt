//! Laws of what the writer never refuses as unexpected.

ghost use Rattle.tocmark_document_laws.specs.ProperLists.{ProperListsAreExpected, ReadingsAreExpected, ShortReadingsAreExpected, SomeListsAreUnexpected};

/// A new state never refuses a list of events as `UnexpectedEvent` if its containers nest and none begins where the writer
/// refuses it. It refuses no front of such a list so. This holds under all options and flags, over every reader, and
/// with any ranges in any source.
pub fn proper_lists_are_expected()
    ensures { ProperListsAreExpected }
{}

/// So the writer never refuses what `CoreReader` reads of a text as `UnexpectedEvent`. The text has fewer than 2^30 bytes
/// (`short`), or the depth of each block and the length of its text, together, are numbers of 64 bits (`counted`).
pub fn readings_are_expected()
    ensures counted { ReadingsAreExpected }
    ensures short { ShortReadingsAreExpected }
{}

/// Two lists that are refused so, computed: an item in no list, and a heading in a heading.
pub fn some_lists_are_unexpected()
    ensures { SomeListsAreUnexpected }
{}
