//! A node of emphasis or strong emphasis, as its opening sees it.

ghost use Rattle.std.specs.Prelude.{◌≡◌, ◌≤◌, ◌<◌, ◌+◌, if◌then◌else◌, map, take, drop, reverse, length, slice_index_or, option_map, unwrap_or, Some, None, string_bytes, false, List};
ghost use Rattle.tocmark_event.specs.View.{event_view, unsourced, SourcedEvent, TagView};
ghost use Rattle.tocmark_write_emphasis.specs.ColumnsOf.{AreColumns};
ghost use Rattle.tocmark_write_emphasis.specs.Low.{HasLowLiterals};
ghost use Rattle.tocmark_write_emphasis.specs.NodeOf.{Begins, IsNodeAt, no_run};
ghost use Rattle.tocmark_write_pending.specs.Ahead.{behind_body};
ghost use Rattle.tocmark_write_emphasis.specs.Facts.{Readings};
ghost use Rattle.tocmark_write_pending.specs.RunColumn.{run_view};
ghost use Rattle.tocmark_spelling.specs.Buffered.{buffered_view, following_view};
ghost use Rattle.tocmark_spelling.specs.Edges.{edge_after, event_edge};
ghost use Rattle.tocmark_spelling.specs.Kinds.{starts};
ghost use Rattle.tocmark_spelling.specs.Marker.{ends_delimiter, is_strong};
ghost use Rattle.tocmark_spelling.specs.Page.{front};
ghost use Rattle.tocmark_spelling.specs.Scans.{AreEnds};
ghost use Rattle.tocmark_spelling.specs.Words.{first_character, or_else};

use crate::columns::Columns;
use crate::facts::EmphasisEvents;
use tocmark_event::event::{EventOf, OwnedEvent, TagEnd, TagOf};
use tocmark_spelling::buffered::BufferedEvent;
use tocmark_spelling::kinds::{is_inline_end, is_inline_tag};
use tocmark_write_pending::edges::{first_character, inline_edge};
use tocmark_write_pending::ends::body_end;
use tocmark_write_pending::pending::Pending;
use tocmark_write_pending::runs::Run;

/// The run itself, or one without markers where none is given.
fn run_or_none(run: Option<Run>) -> Run
    ensures { run_view result ≡ unwrap_or (option_map run_view run) no_run }
{
    match run {
        Some(run) => run,
        None => Run {
            before: None,
            after: None,
            literal_before: None,
            literal_after: None,
            width: 0,
        },
    }
}

fn starts_strong(event: &BufferedEvent) -> bool
    ensures { result ≡ starts is_strong (unsourced (buffered_view event.now)) }
{
    matches!(&event.event, EventOf::Start(TagOf::Strong))
}

/// Whether an event ends emphasis or strong emphasis.
fn ends_delimiter(event: &BufferedEvent) -> bool
    ensures { result ≡ ends_delimiter (Some (unsourced (buffered_view event.now))) }
{
    match &event.event {
        EventOf::End(TagEnd::Emphasis) => true,
        EventOf::End(TagEnd::Strong) => true,
        _ => false,
    }
}

/// Whether the event before a place ends emphasis or strong emphasis.
fn follows_closing(events: &[BufferedEvent], place: usize) -> bool
    requires { place ≤ length events.now }
    ensures { result
        ≡ ends_delimiter (front (reverse (take place (map buffered_view events.now)))) }
{
    if place == 0 {
        false
    } else {
        ends_delimiter(&events[place - 1])
    }
}

/// The first character of an event, as its neighbours see it.
fn first_edge(event: &OwnedEvent) -> Option<char>
    ensures { result ≡ event_edge first_character (event_view string_bytes event.now) }
{
    match event {
        EventOf::Start(tag) => inline_edge(is_inline_tag(tag)),
        EventOf::End(end) => inline_edge(is_inline_end(*end)),
        EventOf::Text(text) => first_character(text.as_str()),
        EventOf::InlineHtml(text) => first_character(text.as_str()),
        EventOf::SoftBreak => Some('\n'),
        EventOf::HardBreak => Some('\n'),
        _ => Some('*'),
    }
}

fn edge_after(event: Option<&OwnedEvent>) -> Option<char>
    ensures { result ≡ edge_after (following_view event.entry) }
{
    match event {
        Some(event) => first_edge(event),
        None => None,
    }
}

/// The event after a place, or else the one after the unit.
pub fn following<'e>(
    events: &'e [BufferedEvent],
    place: usize,
    next: Option<&'e OwnedEvent>,
) -> Option<&'e OwnedEvent>
    ensures { following_view result
        ≡ or_else (front (drop (place + 1) (map buffered_view events.entry.now)))
        (following_view next.entry) }
{
    if place < events.len().saturating_sub(1) {
        Some(&events[place + 1].event)
    } else {
        next
    }
}

fn truth_at(truths: &[bool], place: usize) -> bool
    ensures { result ≡ slice_index_or truths.now place false }
{
    if place < truths.len() {
        truths[place]
    } else {
        false
    }
}

impl Columns {
    /// Whether a container that starts at this place prefers the underscore, in the preferred
    /// layout or in another one.
    fn prefers(&self, place: usize, preferred: bool) -> bool
        ensures { result ≡ slice_index_or
            (if preferred then self.now.by_neighbours.items else self.now.by_runs.items)
            place false }
    {
        if preferred {
            truth_at(&self.by_neighbours, place)
        } else {
            truth_at(&self.by_runs, place)
        }
    }
}

/// The event in the unit just after the container that starts at this place. `ends` says where the
/// containers end.
pub fn next_in_unit<'e>(
    events: &'e [BufferedEvent],
    ends: &[Option<usize>],
    place: usize,
) -> Option<&'e OwnedEvent>
    requires within { place < length events.now }
    requires ends { AreEnds (map buffered_view events.now) ends.now }
    ensures { (t : TagView) (rest : List SourcedEvent)
        → Begins (map buffered_view events.entry.now) place t rest
        → following_view result ≡ front (behind_body rest) }
{
    following(events, body_end(ends, place), None)
}

/// The node of emphasis or strong emphasis that starts at this place of a unit's events.
///
/// `columns` are those of the unit; `preferred` says whether the layout is the preferred one, and `next`
/// is the event after the unit.
pub fn node_at(
    columns: &Columns,
    unit: &Pending,
    place: usize,
    preferred: bool,
    next: Option<&OwnedEvent>,
) -> EmphasisEvents
    requires within { place < length unit.now.events }
    ensures node { (reading : Readings) → AreColumns reading unit.now.events columns.now
        → IsNodeAt reading unit.now.events place preferred (following_view next.entry) result }
    ensures low { HasLowLiterals result }
{
    let events = unit.events();
    let end = body_end(unit.ends(), place);
    EmphasisEvents {
        strong: starts_strong(&events[place]),
        follows_closing: follows_closing(events, place),
        next: edge_after(following(events, end, next)),
        opening: run_or_none(unit.run_at(place)),
        closing: run_or_none(unit.run_at(end)),
        width: unit.width_at(place),
        prefers: columns.prefers(place, preferred),
    }
}
