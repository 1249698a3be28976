//! Laws of the definitions: functions that do nothing, whose contracts say what holds.

ghost use Rattle.std.specs.Prelude.{◌≡◌, ℕ, ◌<◌, false, List, Some, length, chars, IsUtf8};
ghost use Rattle.tocmark_write_texts.specs.Destination.{destination_text, title_text};
ghost use Rattle.tocmark_write_texts.specs.Leaves.{code_span, unspan};
ghost use Rattle.tocmark_write_texts.specs.Unescape.{unescape, EscapesReadBack, EscapedTextsReadBack};

/// An escaped stretch is read as the stretch: with `*` or `_` for emphasis, wherever it is, each text
/// of characters other than NUL.
pub fn escapes_read_back()
    ensures characters { EscapesReadBack }
    ensures texts { EscapedTextsReadBack }
{}

/// What is in an escaped destination is read as the destination.
pub fn destinations_read_back()
    ensures characters { (text : List ℕ) → unescape (destination_text text) ≡ text }
    ensures texts { (text : List ℕ) → IsUtf8 text → unescape (chars (destination_text text))
        ≡ chars text }
{}

/// What is between the quotes of an escaped title is read as the title.
pub fn titles_read_back()
    ensures characters { (text : List ℕ) → unescape (title_text text) ≡ text }
    ensures texts { (text : List ℕ) → IsUtf8 text
        → unescape (chars (title_text text)) ≡ chars text }
{}

/// A code span outside a table is read as its text, if that isn't empty.
pub fn code_spans_read_back()
    ensures { (text : List ℕ) → 0 < length text → unspan (code_span false text) ≡ Some text }
{}
