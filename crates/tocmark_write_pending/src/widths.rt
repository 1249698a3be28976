//! How many markers the containers of a unit open with, found when they end.

ghost use Rattle.std.specs.Prelude.{◌≡◌, drop, map, IfOk};
ghost use Rattle.tocmark_event.specs.View.{SourcedEvent};
ghost use Rattle.tocmark_spelling.specs.Buffered.{buffered_view};
ghost use Rattle.tocmark_spelling.specs.Runs.{start_width};
ghost use Rattle.tocmark_spelling.specs.Scans.{AreEnds};
ghost use Rattle.tocmark_write_pending.specs.DelimiterColumn.{AreNumbered, numbers_of, widths_of};
ghost use Rattle.tocmark_write_pending.specs.OpenContainers.{EndsAt, IsOpenAt};
ghost use Rattle.tocmark_write_pending.specs.WidthColumn.{AreWidths, added_by, is_last, width_by, width_ended, width_now};

use crate::delimiters::{Delimiter, width_at};
use crate::ends::end_at;
use crate::placeholder::rest_of;
use std::alloc::AllocError;
use tocmark_event::event::{EventOf, TagOf};
use tocmark_spelling::buffered::BufferedEvent;

fn start_width(event: &BufferedEvent) -> usize
    ensures { result ≡ start_width (buffered_view event.now) }
{
    match &event.event {
        EventOf::Start(TagOf::Emphasis) => 1,
        EventOf::Start(TagOf::Strong) => 2,
        _ => 0,
    }
}

/// What a first child adds to the container that ends after it, given how many markers it opens with.
fn added_by(event: &BufferedEvent, is_only: bool, width: usize) -> usize
    ensures { result ≡ added_by (buffered_view event.now) is_only width }
{
    match &event.event {
        EventOf::Start(TagOf::Emphasis) => { if is_only { 0 } else { width } }
        EventOf::Start(TagOf::Strong) => width,
        _ => 0,
    }
}

/// Whether a container ended with the last of so many events.
fn is_last(end: Option<usize>, count: usize) -> bool
    ensures { result ≡ is_last end count }
{
    match end {
        Some(end) => end < count && count - end == 1,
        None => false,
    }
}

/// How many markers open a container that ends after these events, the first of which is its start;
/// given whether its first child is its only one, and how many markers that opens with.
fn width_by(events: &[BufferedEvent], is_only: bool, width: usize) -> Result<usize, AllocError>
    ensures { IfOk result (λ all. all ≡ width_by (map buffered_view events.now) is_only width) }
{
    match events {
        [start, first, ..] => {
            start_width(start)
                .checked_add(added_by(first, is_only, width))
                .ok_or(AllocError)
        }
        [start] => Ok(start_width(start)),
        [] => Ok(0),
    }
}

/// How many markers the container opens with whose start is at a place, and which one more event ends;
/// none where no delimiter is at its start or after that.
fn width_of_start(
    events: &[BufferedEvent],
    ends: &[Option<usize>],
    delimiters: &[Delimiter],
    start: usize,
) -> Result<usize, AllocError>
    requires ends { AreEnds (map buffered_view events.now) ends.now }
    requires numbers { AreNumbered (map buffered_view events.now) (numbers_of delimiters.now) }
    requires widths { AreWidths (map buffered_view events.now) (widths_of delimiters.now) }
    ensures { let es = map buffered_view events.now in
        IsOpenAt es start 0 → IfOk result (λ all. all ≡ width_now (drop start es)) }
{
    if start < delimiters.len() {
        let first = start + 1;
        let is_only = is_last(end_at(ends, first), events.len());
        width_by(rest_of(events, start), is_only, width_at(delimiters, first))
    } else {
        Ok(0)
    }
}

/// How many markers the container opens with that one more event ends, if it ends one, whose start is at a
/// place.
///
/// An `Err` says that they are as many as no text can have.
pub(crate) fn ended_width(
    events: &[BufferedEvent],
    ends: &[Option<usize>],
    delimiters: &[Delimiter],
    ended: Option<usize>,
) -> Result<usize, AllocError>
    requires ends { AreEnds (map buffered_view events.now) ends.now }
    requires numbers { AreNumbered (map buffered_view events.now) (numbers_of delimiters.now) }
    requires widths { AreWidths (map buffered_view events.now) (widths_of delimiters.now) }
    ensures { let es = map buffered_view events.now in
        (e : SourcedEvent) → EndsAt es e ended → IfOk result (λ all. all ≡ width_ended es ended) }
{
    match ended {
        Some(start) => width_of_start(events, ends, delimiters, start),
        None => Ok(0),
    }
}
