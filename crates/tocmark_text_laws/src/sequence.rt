//! Laws of two texts in a row.

ghost use Rattle.tocmark_text_laws.specs.Sequence.{AnEmptyLineBetween, SomeGoOn, TextsInARow};

/// The CommonMark blocks of a text with another one after it are the blocks of the first, and then the blocks of the second. The
/// same holds for the definitions of links. Each block keeps its kind, its content, and the bytes of its lines with their endings.
///
/// The first text ends with a line feed and leaves nothing open. Its last block is a heading, a thematic break, fenced code with its
/// closing fence, or HTML with its end. It can be another block if an empty line closes it.
pub fn texts_in_a_row()
    ensures { TextsInARow }
{}

/// The same holds if an empty line comes between the texts and closes what the first one leaves open.
///
/// An empty line closes a block quote with all its content. Outside of containers, it closes a paragraph, and HTML of the kinds that
/// end at an empty line. So the last block of the first text can be any but these: a list, indented code, fenced code without its
/// closing fence, and HTML without its end.
pub fn an_empty_line_between()
    ensures { AnEmptyLineBetween }
{}

/// An empty line doesn't close a list, indented code, fenced code without its closing fence, or HTML without its end. In these
/// examples both texts share one block, so the premise is needed.
pub fn some_texts_go_on()
    ensures { SomeGoOn }
{}
