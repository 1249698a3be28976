//! Rewrites documents to the events of a JSON text.

ghost use Rattle.std.specs.Prelude.{◌≡◌, ◌++◌, ℕ, IfErr, IfOk, List};
ghost use Rattle.tocmark_event.specs.Reading.{ReadingView};
ghost use Rattle.tocmark_event.specs.Text.{text_of};
ghost use Rattle.tocmark_event.specs.View.{EventView};
ghost use Rattle.tocmark_compare.specs.Given.{given_events};
ghost use Rattle.tocmark_json.specs.Json.{pair_view};
ghost use Rattle.tocmark_event.specs.declared.event.flags.ParserOptions.{ParserOptions};
ghost use Rattle.tocmark_judge.specs.Marks.{after_mark, mark};
ghost use Rattle.tocmark_rewrite.specs.Edited.{HasItsCause, IsWrittenFor};
ghost use Rattle.tocmark_documents.specs.Document.{without_range};
ghost use Rattle.tocmark_documents.specs.Interchange.{IsNoEvents};
ghost use Rattle.tocmark_documents.specs.Rewriting.{IsAfterMark, IsOfBlock, IsRewriteCause, IsRewrittenFrom, IsWrittenAfterMark, reading_under};

use crate::aligning::{aligned, in_places, in_rest};
use crate::fault::{RewriteError, WriteError};
use crate::pairs::Placed;
use crate::refusal::{lines_of, unbalanced};
use crate::writing::pairs_in;
use std::alloc::{AllocError, Global};
use tocmark::event::{Event, ParserOptions};
use tocmark::{Error, Options};
use tocmark_judge::mark::{with_mark, without_mark};
use tocmark_reader::{ExtendedReader, Names};
use tocmark_rewrite::{Fault, Place, Rewritten, rewritten_slice};

/// The place of the event that unbalances a list, if one does, with its lines unless its range is empty.
fn unbalanced_place(
    alloc: Global,
    events: &[(Event<'_>, (usize, usize))],
    source: &str,
) -> Result<Option<Place>, AllocError> {
    let Some(event) = unbalanced(alloc, events)? else {
        return Ok(None);
    };
    let lines = match events.get(event) {
        Some((_, range)) if range.0 < range.1 => Some(lines_of(alloc, source, *range)?),
        _ => None,
    };
    Ok(Some(Place { event, lines }))
}

/// Why events have no text: if they are unbalanced, the event that makes them so is named.
fn refusal_of(
    alloc: Global,
    events: &[(Event<'_>, (usize, usize))],
    source: &str,
    fault: Fault,
) -> RewriteError
    ensures { (reading : List ℕ → ReadingView) → (given : List EventView)
        → HasItsCause reading source.now given fault
        → IsOfBlock reading source.now given result }
{
    let Ok(unbalanced) = unbalanced_place(alloc, events, source) else {
        return RewriteError::OutOfMemory;
    };
    if let Some(place) = unbalanced {
        return match fault {
            Fault::OutOfMemory => RewriteError::OutOfMemory,
            Fault::Refused(..) => RewriteError::Refused(place, Error::UnexpectedEvent),
            Fault::ReadOtherwise(_) => RewriteError::Refused(place, Error::UnexpectedEvent),
        };
    }
    match fault {
        Fault::OutOfMemory => RewriteError::OutOfMemory,
        Fault::Refused(place, error) => RewriteError::Refused(place, error),
        Fault::ReadOtherwise(place) => RewriteError::ReadOtherwise(place),
    }
}

/// The events, lent.
fn lent<'a>(events: &'a [(Event<'static>, (usize, usize))]) -> &'a [(Event<'a>, (usize, usize))]
    ensures { result.now ≡ events.now }
{
    events
}

/// The source, rewritten to these events.
fn rewritten_pairs(
    alloc: Global,
    pairs: Vec<Placed<'static>>,
    source: &str,
    flags: ParserOptions,
    options: Options<'_>,
) -> Result<Rewritten, RewriteError>
    ensures edited { IfOk result (IsWrittenFor (reading_under flags) source.now
        (given_events pairs.entry.items)) }
    ensures block { IfErr result (IsOfBlock (reading_under flags) source.now
        (given_events pairs.entry.items)) }
{
    let placed = aligned(alloc, pairs, source, flags)?;
    let events = in_places(alloc, placed)?;
    let reader = ExtendedReader { names: Names::All };
    match rewritten_slice(alloc, source, lent(&events), &reader, flags, options) {
        Ok(answer) => Ok(answer),
        Err(fault) => Err(refusal_of(alloc, &events, source, fault)),
    }
}

/// The answer for the text after a mark, with the mark in front of its text.
fn with_mark_again(alloc: Global, rest: Rewritten) -> Result<Rewritten, AllocError>
    ensures { IfOk result (λ answer. (after : List ℕ)
        → IsAfterMark (mark ++ after) rest answer) }
{
    let Rewritten { text, parts, trees } = rest;
    let text = with_mark(alloc, text.as_str())?;
    Ok(Rewritten { text, parts, trees })
}

/// The source that has a mark before this text, rewritten to these events.
fn rewritten_after_mark(
    alloc: Global,
    pairs: Vec<Placed<'static>>,
    rest: &str,
    flags: ParserOptions,
    options: Options<'_>,
) -> Result<Rewritten, RewriteError>
    ensures edited { IfOk result (IsWrittenAfterMark (reading_under flags) (mark ++ rest.now)
        (given_events pairs.entry.items)) }
    ensures block { IfErr result (IsOfBlock (reading_under flags) rest.now
        (given_events pairs.entry.items)) }
{
    let placed = in_rest(alloc, pairs)?;
    match rewritten_pairs(alloc, placed, rest, flags, options) {
        Ok(answer) => Ok(with_mark_again(alloc, answer)?),
        Err(error) => Err(error),
    }
}

/// The source, rewritten to these events. Its byte order mark is no text, and stays.
fn rewritten_source(
    alloc: Global,
    pairs: Vec<Placed<'static>>,
    source: &str,
    flags: ParserOptions,
    options: Options<'_>,
) -> Result<Rewritten, RewriteError>
    ensures edited { IfOk result (IsWrittenAfterMark (reading_under flags) source.now
        (given_events pairs.entry.items)) }
    ensures block { IfErr result (IsOfBlock (reading_under flags) (after_mark source.now)
        (given_events pairs.entry.items)) }
{
    match without_mark(source) {
        Some(rest) => rewritten_after_mark(alloc, pairs, rest, flags, options),
        None => rewritten_pairs(alloc, pairs, source, flags, options),
    }
}

/// Why a text is not the JSON of events.
fn not_events(error: WriteError) -> RewriteError
    ensures { (flags : ParserOptions) → (source input : List ℕ) → IsNoEvents input error
        → IsRewriteCause flags source input result }
{
    match error {
        WriteError::NotJson(error) => RewriteError::NotJson(error),
        WriteError::NotEvents(error) => RewriteError::NotEvents(error),
        WriteError::Refused(place, error) => RewriteError::Refused(place, error),
        WriteError::OutOfMemory => RewriteError::OutOfMemory,
    }
}

/// Rewrites a source to the events of a JSON text: an array of events, or of pairs of an event and its range or
/// `null`. All that wasn't edited stays byte for byte. The options say how edited blocks are written.
///
/// The events are those of `read_json` over the same source under the same flags; the caller has changed, added or
/// removed some. If no event has a range, blocks of the source are found by their events. Else a new event has no
/// range, or the range of what it replaces.
///
/// The new text parses to just these events, with neighbouring texts joined. It is the source if nothing was changed. A
/// byte order mark at the front of the source stays there. It is no text: the events are those of what follows it, and the
/// bytes in the answer's parts and trees are counted from there.
///
/// It fails if the text isn't JSON (`NotJson`), or not the JSON of events (`NotEvents`, with the number of the first
/// element that is none), if a block has no text (`Refused` and `ReadOtherwise`, with the number of the block's first
/// event, and with its lines in the source if it stands for a block there), or if memory runs out. A document that
/// wasn't changed is never refused (`cause`).
///
/// ```
/// let source = "# One\n\n* *a*\n* b\n";
/// let flags = ParserOptions::empty();
/// let json = read_json(alloc, source, flags)?.replace(alloc, "H1", "H2")?;
/// let answer = rewrite_json(alloc, json.as_str(), source, flags, Options::default())?;
/// assert_eq!(rt; answer.text.as_str(), "## One\n\n* *a*\n* b\n");
/// ```
pub fn rewrite_json(
    alloc: Global,
    json: &str,
    source: &str,
    flags: ParserOptions,
    options: Options<'_>,
) -> Result<Rewritten, RewriteError>
    ensures edited { IfOk result (IsRewrittenFrom flags source.now json.now) }
    ensures cause { IfErr result (IsRewriteCause flags source.now json.now) }
{
    match pairs_in(alloc, json) {
        Ok(pairs) => rewritten_source(alloc, pairs, source, flags, options),
        Err(error) => Err(not_events(error)),
    }
}
