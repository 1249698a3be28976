//! Laws of texts that have fewer than 2^30 bytes: their blocks and lines are so few that no number of the readers is too
//! large.

ghost use Rattle.tocmark_text_laws.specs.Counted.{ShortReadingsAreProper, ShortTextsAreCounted};

/// In a text of fewer than 2^30 bytes, the depth of each CommonMark block and the length of its text, together, are numbers
/// of 64 bits. This is the premise of `readings_are_proper`.
pub fn short_texts_are_counted()
    ensures { ShortTextsAreCounted }
{}

/// No event of what `CoreReader` reads of a text of fewer than 2^30 bytes is where the writer refuses it.
pub fn short_readings_are_proper()
    ensures { ShortReadingsAreProper }
{}
