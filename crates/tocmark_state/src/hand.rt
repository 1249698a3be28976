//! What a writer is handed.

ghost use Rattle.std.specs.Prelude.{◌==◌, ◌&&◌, not, ◌≡◌, length, IfOk, sum_by};
ghost use Rattle.tocmark_state.specs.Walk.{done, hand_walk, last_walk, two_texts};
ghost use Rattle.tocmark_state.specs.Writes.{Makes};
ghost use Rattle.tocmark_state.specs.WorkView.{at_most};

use crate::taker::Taker;
use std::alloc::Global;
use tocmark_event::options::Error;
use tocmark_write_labels::ending::with_definitions_in_front;

/// Hands a text, unless it is empty. Returns its length in bytes.
pub fn hand<W: Taker>(writer: &mut W, text: &str) -> Result<usize, Error>
    ensures handed { Makes W.takes W.refuses writer.old writer.new result done
        (hand_walk text.now done) }
    ensures count { IfOk result (λ n. n ≡ length text.now) }
{
    if !text.is_empty() {
        writer.take(text)?;
    }
    Ok(text.len())
}

/// Hands two texts, each unless it is empty. Returns how many bytes it handed, at most the greatest
/// `usize`.
fn hand_both<W: Taker>(first: &str, second: &str, writer: &mut W) -> Result<usize, Error>
    ensures made { Makes W.takes W.refuses writer.old writer.new result done
        (two_texts first.now second.now) }
    ensures count { IfOk result (λ n.
        n ≡ at_most (sum_by length (two_texts first.now second.now).texts)) }
{
    let written = hand(writer, first)?;
    let more = hand(writer, second)?;
    Ok(written.saturating_add(more))
}

/// Whether definitions are in front of the last unit: there are some, and they can't follow it.
fn stand_in_front(holds_raw: bool, definitions: &str) -> bool
    ensures { result ≡ holds_raw && not (length definitions.now == 0) }
{
    holds_raw && !definitions.is_empty()
}

/// Hands the text of the last unit and the definitions that are left: they are after it, or in
/// front of it where it holds raw text, which nothing can follow. Returns how many bytes it handed,
/// at most the greatest `usize`.
pub fn hand_last<W: Taker>(
    alloc: Global,
    holds_raw: bool,
    definitions: &str,
    text: &str,
    writer: &mut W,
) -> Result<usize, Error>
    ensures made { Makes W.takes W.refuses writer.old writer.new result done
        (last_walk holds_raw definitions.now text.now) }
    ensures count { IfOk result (λ n.
        n ≡ at_most (sum_by length (last_walk holds_raw definitions.now text.now).texts)) }
{
    if stand_in_front(holds_raw, definitions) {
        let whole = with_definitions_in_front(alloc, definitions, text)?;
        return hand_both(whole.as_str(), "", writer);
    }
    hand_both(text, definitions, writer)
}
