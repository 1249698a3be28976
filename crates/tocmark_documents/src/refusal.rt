//! Where a list of events is refused.

ghost use Rattle.std.specs.List.{All};
ghost use Rattle.std.specs.Prelude.{◌≡◌, ◌-◌, ◌≤◌, ◌<◌, IfOk, IfSome, length, map};
ghost use Rattle.tocmark_event.specs.Text.{text_of};
ghost use Rattle.tocmark_documents.specs.Interchange.{in_source};
ghost use Rattle.tocmark_documents.specs.Places.{IsWithin, lines_at, lines_of, range_at};
ghost use Rattle.tocmark_json.specs.Json.{pair_view};

use crate::pairs::{EventPairs, Placed, kept};
use std::alloc::{AllocError, Global};
use std::fmt;
use tocmark::event::{Event, ParserOptions};
use tocmark::{Error, Options, State};
use tocmark_json::positions::Positions;
use tocmark_reader::{Names, UnitReader};
use tocmark_rewrite::Place;

/// A writer that keeps nothing.
#[derive(Clone, Copy)]
struct Discarded;

impl fmt::Write for Discarded {
    fn write_str(&mut self, _text: &str) -> fmt::Result {
        Ok(())
    }
}

/// The number of the event that unbalances a list: of the first End that isn't the innermost open container's, or else of
/// the innermost Start that has no End.
pub(crate) fn unbalanced<X>(
    alloc: Global,
    pairs: &[(Event<'_>, X)],
) -> Result<Option<usize>, AllocError>
    ensures { IfOk result (λ answer. IfSome answer (λ at. at < length pairs.now)) }
{
    let mut open = Vec::new(alloc);
    for at in 0..pairs.len() {
        match &pairs[at].0 {
            Event::Start(tag) => open.push((at, tag.to_end()))?,
            Event::End(end) => match open.pop() {
                Some((_, wanted)) if wanted == *end => {}
                _ => return Ok(Some(at)),
            },
            _ => {}
        }
    }
    match open.pop() {
        Some((at, _)) => Ok(Some(at)),
        None => Ok(None),
    }
}

/// What was written of a list, one event after the other.
#[derive(Clone, Copy)]
struct Progress {
    /// The first event after the last text that was written.
    unwritten: usize,
    /// The first event of the last tree.
    tree: usize,
    /// How many containers are open.
    depth: usize,
}

impl Progress {
    /// The progress after one more event, at which so many bytes were written.
    fn behind(self, at: usize, event: &Event<'_>, written: usize) -> Progress
        ensures { IsWithin at self → IsWithin at result }
    {
        Progress {
            unwritten: if written > 0 { at } else { self.unwritten },
            tree: if self.depth == 0 { at } else { self.tree },
            depth: match event {
                Event::Start(_) => self.depth.saturating_add(1),
                Event::End(_) => self.depth.saturating_sub(1),
                _ => self.depth,
            },
        }
    }

    /// The first event of what is refused when this event comes: of the unit before it, unless the event itself is wrong.
    fn refused(self, at: usize, event: &Event<'_>, error: Error) -> usize
        ensures { IsWithin at self → result ≤ at }
    {
        let is_wrong = match (event, error) {
            (_, Error::InvalidSourceRange) => true,
            (Event::End(_), Error::UnexpectedEvent) => true,
            _ => false,
        };
        if is_wrong || self.depth > 0 {
            at
        } else {
            self.tree
        }
    }
}

/// The number of the event at which the state refuses the list. If the state takes all events, it is the event that
/// unbalances the list, or else the first one that isn't written yet.
fn first_refused<'a>(
    alloc: Global,
    state: &mut State<UnitReader>,
    pairs: &'a [Placed<'a>],
    source: &str,
    has_source: bool,
) -> Result<usize, AllocError>
    ensures { IfOk result (λ event. event ≤ length pairs.now - 1) }
{
    let mut progress = Progress {
        unwritten: 0,
        tree: 0,
        depth: 0,
    };
    for at in 0..pairs.len() {
        let one = pairs.get(at..at.saturating_add(1)).unwrap_or(&[]);
        let one = EventPairs::new(one, has_source);
        match state.process_with_source_range(one, source, &mut Discarded) {
            Ok(done) => progress = progress.behind(at, &pairs[at].0, done.bytes_written),
            Err(Error::OutOfMemory) => return Err(AllocError),
            Err(error) => return Ok(progress.refused(at, &pairs[at].0, error)),
        }
    }
    match unbalanced(alloc, pairs)? {
        Some(at) => Ok(at),
        None => Ok(progress.unwritten),
    }
}

/// The range of the event of this number; none if it has none, or if there is no source.
fn range_at(pairs: &[Placed<'_>], event: usize, has_source: bool) -> Option<(usize, usize)>
    ensures { result ≡ range_at (in_source has_source (map (pair_view text_of) pairs.now)) event }
{
    match pairs.get(event) {
        Some(pair) => kept(has_source, pair.1),
        None => None,
    }
}

/// The lines of a range of a source: those of its first byte and of its last one.
pub(crate) fn lines_of(
    alloc: Global,
    source: &str,
    range: (usize, usize),
) -> Result<(usize, usize), AllocError>
    ensures { IfOk result (λ lines. lines ≡ lines_of source.now range) }
{
    let positions = Positions::new(alloc, source)?;
    let span = positions.span((range.0, range.1.saturating_sub(1)));
    Ok((span.start.line, span.end.line.max(span.start.line)))
}

/// The place of an event in the list, with the lines of its range if it has one in this source.
pub(crate) fn place_at(
    alloc: Global,
    pairs: &[Placed<'_>],
    event: usize,
    source: &str,
    has_source: bool,
) -> Result<Place, AllocError>
    ensures event { IfOk result (λ place. place.event ≡ event) }
    ensures lines { IfOk result (λ place. place.lines ≡ lines_at source.now
        (in_source has_source (map (pair_view text_of) pairs.now)) event) }
{
    match range_at(pairs, event, has_source) {
        Some(range) => {
            let lines = lines_of(alloc, source, range)?;
            Ok(Place {
                event,
                lines: Some(lines),
            })
        }
        None => Ok(Place { event, lines: None }),
    }
}

/// The number of the event at which the writer refuses a list that it refuses: the first one of the refused unit, or the one
/// that has no place or a bad range.
///
/// It writes the list again, event by event.
pub(crate) fn refused_at<'a>(
    alloc: Global,
    pairs: &'a [Placed<'a>],
    source: &str,
    has_source: bool,
    flags: ParserOptions,
    options: Options<'static>,
) -> Result<usize, AllocError>
    ensures { IfOk result (λ event. event ≤ length pairs.now - 1) }
{
    let reader = UnitReader { names: Names::All };
    let Ok(mut state) = State::new(alloc, reader, flags, options) else {
        return Err(AllocError);
    };
    let refused = first_refused(alloc, &mut state, pairs, source, has_source);
    drop(state);
    refused
}
