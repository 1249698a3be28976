//! A law of block quotes in every text.

ghost use Rattle.tocmark_text_laws.specs.Quoted.{MarksMakeAQuote};

/// With a block quote marker in front of each line of a text, its CommonMark blocks are in one block quote. This is the
/// standard's rule for block quotes (5.1, basic case).
///
/// A marker is `>` with a space after it, or without one if the line doesn't begin with a space. Up to three spaces can be in
/// front of it. Each line can have another marker. Each block keeps what it is, what is in it, and the bytes of its lines with
/// their endings. The definitions of links stay the same, too. The text isn't empty and has no tab.
pub fn marks_make_a_quote()
    ensures { MarksMakeAQuote }
{}
