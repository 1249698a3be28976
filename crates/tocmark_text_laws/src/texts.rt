//! Laws of what becomes of the bytes of a leaf: from its lines to its text, from the text to nodes, how deep these are, and
//! where their events are.

ghost use Rattle.tocmark_text_laws.specs.Inside.{InlinesStayInside};
ghost use Rattle.tocmark_text_laws.specs.Kept.{LinesAreKept};
ghost use Rattle.tocmark_text_laws.specs.Proper.{ReadingsAreProper};
ghost use Rattle.tocmark_text_laws.specs.Said.{NoByteIsLost};

/// The text of a leaf is all bytes of its lines, with a line feed after each, but for white space at the end.
pub fn lines_are_kept()
    ensures { LinesAreKept }
{}

/// No byte of a leaf's text is left out, whatever marks are found in it: each is marked, in the range of a mark, or in a
/// text.
pub fn no_byte_is_lost()
    ensures { NoByteIsLost }
{}

/// No inline of a leaf ends a container that none of them began, in CommonMark: each is as deep as the first, or deeper. So
/// the inlines of a leaf never end the leaf, or what it is in.
pub fn inlines_stay_inside()
    ensures { InlinesStayInside }
{}

/// No event of what `CoreReader` reads is where the writer refuses it: an item is directly in a list, and no heading is in a
/// heading. The depth of each block and the length of its text are numbers of 64 bits.
pub fn readings_are_proper()
    ensures { ReadingsAreProper }
{}
