//! Laws of empty lines in front of every text.

ghost use Rattle.tocmark_text_laws.specs.EmptyLine.{EmptyLinesInFront};
ghost use Rattle.tocmark_text_laws.specs.Further.{EmptyLineInFront};

/// A line feed in front of a text moves the places of its blocks by one, and changes nothing else of them.
pub fn an_empty_line_in_front()
    ensures { EmptyLineInFront }
{}

/// Line feeds in front of a text move the ranges of its events by their number. They change neither the events nor the
/// labels that are defined or looked up in vain. So it is with what `CoreReader` returns, by the clause `reading` of its
/// `read`.
pub fn empty_lines_in_front()
    ensures { EmptyLinesInFront }
{}
