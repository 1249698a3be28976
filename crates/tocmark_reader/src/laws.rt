//! Laws of what is read, each the contract of a function that does nothing.

ghost use Rattle.std.specs.Prelude.{◌<◌, ◌^◌, IsTrue, List, length, ℕ, ◌↔◌};
ghost use Rattle.tocmark_read_scan.specs.PlainParts.{Part, spelled};
ghost use Rattle.tocmark_reader.specs.PlainTexts.{AreKept, IsPlain, is_plain, is_plain_text, text_parts};
ghost use Rattle.tocmark_reader.specs.Reading.{found_in};

/// The test of a text says whether the clause `plain` of `CoreReader::read` speaks of it.
pub fn plain_texts_are_decided()
    ensures { (text : List ℕ) → IsTrue (is_plain text) ↔ IsPlain text }
{}

/// The range of each node that is found in a plain text is that of its event: none is cut or turned.
pub fn plain_ranges_are_kept()
    ensures { (l : List Part) (ms : List (List Part)) → IsTrue (is_plain_text l ms)
        → length (spelled (text_parts l ms)) < 2 ^ 64
        → AreKept (spelled (text_parts l ms)) (found_in (spelled (text_parts l ms))).nodes }
{}
