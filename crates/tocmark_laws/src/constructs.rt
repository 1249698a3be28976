//! Laws of both readers: the exact events of texts of one kind, under every syntax.
//!
//! They speak of `reading_of`, the definition of what `ExtendedReader` reads under a syntax, and `CoreReader` under none.
//! Each text has one construct of CommonMark, round lines of words: a line begins with a letter, and none of its
//! characters, from U+0020 to U+007E, is a mark.

ghost use Rattle.tocmark_laws.specs.CodeSpans.{CodeSpansAreRead};
ghost use Rattle.tocmark_laws.specs.HardBreaks.{BreaksAreRead};
ghost use Rattle.tocmark_laws.specs.OrderedLists.{OrderedListsAreRead};
ghost use Rattle.tocmark_laws.specs.PlainCode.{FencedCodeIsRead};
ghost use Rattle.tocmark_laws.specs.PlainLists.{BulletListsAreRead};
ghost use Rattle.tocmark_laws.specs.PlainQuotes.{PartedQuotesAreRead, QuotesAreRead};

/// Under every syntax, lines of words are a paragraph with a text for each line. A line that ends with a backslash, or
/// with two spaces or more, has a hard break after it, and any other line a soft one.
pub fn hard_breaks_are_read()
    ensures { BreaksAreRead }
{}

/// Under every syntax, code between two backticks is a paragraph of a code span. It has characters
/// from U+0020 to U+007E but backticks, and no space at either end.
pub fn code_spans_are_read()
    ensures { CodeSpansAreRead }
{}

/// Under every syntax, lines of words that each be after `-`, `+` or `*` and a space, as `- two words`, are a tight
/// list without numbers, with an item for each line.
pub fn bullet_lists_are_read()
    ensures { BulletListsAreRead }
{}

/// Under every syntax, lines of words that each be after one to nine digits, `.` or `)` for all of them, and a space,
/// as `12. two words`, are a tight list with an item for each line. The first number is its own, and the others may be any.
pub fn ordered_lists_are_read()
    ensures { OrderedListsAreRead }
{}

/// Under every syntax, lines of words that each be after `> ` are a quote without a kind, of one paragraph with a
/// text for each line, and the breaks of `hard_breaks_are_read` between them.
pub fn quotes_are_read()
    ensures { QuotesAreRead }
{}

/// Under every syntax, lines between two fences of at least three backticks, or tildes, are a code
/// block with these lines. Letters and digits after the first fence are its info string. A line
/// has any ASCII but U+0000, and nowhere as many backticks, or tildes, in a row as the fences.
pub fn fenced_code_is_read()
    ensures { FencedCodeIsRead }
{}

/// Under every syntax, lines of words that each be after `> `, with `>` alone on a line between
/// two, are a quote without a kind, with a paragraph for each line.
pub fn parted_quotes_are_read()
    ensures { PartedQuotesAreRead }
{}
