//! The labels of footnotes.

ghost use Rattle.std.specs.Prelude.{◌≡◌};
ghost use Rattle.tocmark_read_tokens.specs.Footnotes.{on_one_line, note_label};

use crate::word::{Word, label_from};
use tocmark_read_scan::basic::{bytes_between, starts_at};

/// A word, if it is on one line.
#[tactic(auto, unfolding(crate::specs::Footnotes::on_one_line))]
fn on_one_line(bytes: &[u8], word: Word) -> Option<Word>
    ensures { result ≡ on_one_line bytes.now word }
{
    if bytes_between(bytes, word.start, word.end).contains(&b'\n') {
        None
    } else {
        Some(word)
    }
}

/// The label of a footnote at a place: a bracket, a caret, and on the same line what can be a link label.
/// The word is the footnote's name, without the caret.
#[tactic(auto, unfolding(crate::specs::Footnotes::note_label))]
pub fn note_label(bytes: &[u8], place: usize) -> Option<Word>
    ensures { result ≡ note_label bytes.now place }
{
    if starts_at(bytes, place, b"[^") {
        let word = label_from(bytes, place.saturating_add(2))?;
        on_one_line(bytes, word)
    } else {
        None
    }
}
