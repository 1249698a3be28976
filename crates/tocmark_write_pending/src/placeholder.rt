//! Whether a list needs a placeholder, found when its first item ends, or it itself.

ghost use Rattle.std.specs.Prelude.{◌≡◌, ◌∷◌, ◌++◌, ◌||◌, [], drop, false, map, reverse};
ghost use Rattle.tocmark_event.specs.View.{unsourced, SourcedEvent};
ghost use Rattle.tocmark_spelling.specs.Buffered.{buffered_view};
ghost use Rattle.tocmark_spelling.specs.Kinds.{is_item, is_list, is_paragraph, starts};
ghost use Rattle.tocmark_spelling.specs.Scans.{AreEnds};
ghost use Rattle.tocmark_write_pending.specs.EndedLists.{begins_end, begins_first_item, begins_list, ends_in_first_item, ends_only_item_from, is_last_but_one};
ghost use Rattle.tocmark_write_pending.specs.OpenContainers.{EndsAt};
ghost use Rattle.tocmark_write_pending.specs.Placeholder.{is_inline_end_or_leaf};
ghost use Rattle.tocmark_write_pending.specs.Waiting.{has_ambiguous_list, is_end};

use crate::ends::end_at;
use tocmark_event::event::{EventOf, TagOf};
use tocmark_spelling::buffered::BufferedEvent;
use tocmark_spelling::kinds::is_inline_end;

/// Whether inline content is before what follows the event.
fn is_inline_end_or_leaf(event: &BufferedEvent) -> bool
    ensures { result ≡ is_inline_end_or_leaf (unsourced (buffered_view event.now)) }
{
    match &event.event {
        EventOf::Start(_) => false,
        EventOf::End(end) => is_inline_end(*end),
        EventOf::Html(_) => false,
        EventOf::Rule => false,
        _ => true,
    }
}

fn is_end(event: &BufferedEvent) -> bool
    ensures { result ≡ is_end (buffered_view event.now) }
{
    matches!(&event.event, EventOf::End(_))
}

fn starts_list(event: &BufferedEvent) -> bool
    ensures { result ≡ starts is_list (unsourced (buffered_view event.now)) }
{
    matches!(&event.event, EventOf::Start(TagOf::List(_)))
}

fn starts_item(event: &BufferedEvent) -> bool
    ensures { result ≡ starts is_item (unsourced (buffered_view event.now)) }
{
    matches!(&event.event, EventOf::Start(TagOf::Item))
}

fn starts_paragraph(event: &BufferedEvent) -> bool
    ensures { result ≡ starts is_paragraph (unsourced (buffered_view event.now)) }
{
    matches!(&event.event, EventOf::Start(TagOf::Paragraph))
}

/// The events from a place on.
pub(crate) fn rest_of(events: &[BufferedEvent], start: usize) -> &[BufferedEvent]
    ensures { result.now ≡ drop start events.now }
{
    if start <= events.len() {
        &events[start..]
    } else {
        &[]
    }
}

/// Whether the starts of a list and of its first item come after inline content.
fn begins_first_item(events: &[BufferedEvent]) -> bool
    ensures { result ≡ begins_first_item (map buffered_view events.now) }
{
    match events {
        [before, list, item, ..] => {
            starts_list(list) && starts_item(item) && is_inline_end_or_leaf(before)
        }
        _ => false,
    }
}

/// Whether events end with the starts of a list and of its first item, after inline content.
fn ends_in_first_item(events: &[BufferedEvent]) -> bool
    ensures { result ≡ ends_in_first_item false (map buffered_view events.now) }
{
    begins_first_item(rest_of(events, events.len().saturating_sub(3)))
}

/// Whether the starts of a list, of its first item and of a paragraph come.
fn begins_list(events: &[BufferedEvent]) -> bool
    ensures { result ≡ begins_list (map buffered_view events.now) }
{
    match events {
        [list, item, paragraph, ..] => {
            starts_list(list) && starts_item(item) && starts_paragraph(paragraph)
        }
        _ => false,
    }
}

/// Whether the last event is an End.
fn ends_in_end(events: &[BufferedEvent]) -> bool
    ensures { result ≡ begins_end (reverse (map buffered_view events.now)) }
{
    match events.last() {
        Some(event) => is_end(event),
        None => false,
    }
}

/// Whether a container ended with the last event but one of so many.
fn is_last_but_one(end: Option<usize>, count: usize) -> bool
    ensures { result ≡ is_last_but_one end count }
{
    match end {
        Some(end) => end < count && count - end == 2,
        None => false,
    }
}

/// Whether the list whose start is at a place, and that an End ends now, has one item alone, in which a
/// paragraph is alone.
fn ends_only_item(events: &[BufferedEvent], ends: &[Option<usize>], start: usize) -> bool
    requires ends { AreEnds (map buffered_view events.now) ends.now }
    ensures { result ≡ ends_only_item_from (drop start (map buffered_view events.now)) }
{
    if begins_list(rest_of(events, start)) {
        is_last_but_one(end_at(ends, start + 2), events.len()) && ends_in_end(events)
    } else {
        false
    }
}

/// Whether a list needs a placeholder that didn't before, now that an End ends the container whose start
/// is at a place.
fn ends_ambiguous_list(events: &[BufferedEvent], ends: &[Option<usize>], start: usize) -> bool
    requires ends { AreEnds (map buffered_view events.now) ends.now }
    ensures { let es = map buffered_view events.now in
        result ≡ (ends_in_first_item false es || ends_only_item_from (drop start es)) }
{
    ends_in_first_item(events) || ends_only_item(events, ends, start)
}

/// Whether a list among events needs a placeholder once another event joined them, which ends the
/// container whose start is at a place, if it ends one; given whether one did before.
pub(crate) fn is_ambiguous_behind(
    was: bool,
    events: &[BufferedEvent],
    ends: &[Option<usize>],
    ended: Option<usize>,
) -> bool
    requires was { was ≡ has_ambiguous_list false (map buffered_view events.now) }
    requires ends { AreEnds (map buffered_view events.now) ends.now }
    ensures { let es = map buffered_view events.now in
        (e : SourcedEvent) → EndsAt es e ended → result ≡ has_ambiguous_list false (es ++ e ∷ []) }
{
    match ended {
        Some(start) => was || ends_ambiguous_list(events, ends, start),
        None => was,
    }
}
