//! Laws of the lines of every text.

ghost use Rattle.tocmark_text_laws.specs.Lines.{LinesCoverTheText, LinesEndOnce};

/// The lines of a text, each with its ending, are the text: no byte is left out, and none comes twice.
pub fn lines_cover_the_text()
    ensures { LinesCoverTheText }
{}

/// Each line of a text has neither a line feed nor a carriage return in it. After it is a line feed, a carriage
/// return with a line feed, a carriage return without one after it, or the end of the text.
pub fn lines_end_once()
    ensures { LinesEndOnce }
{}
