//! Which containers of emphasis prefer the underscore, since nodes in them would need asterisks that could close them.

ghost use Rattle.std.specs.Prelude.{◌≡◌, ℕ, ◌+◌, ◌≤◌, ◌<◌, ◌∷◌, map, option_map, not, ◌&&◌, ◌||◌, Option, None, string_bytes, if◌then◌else◌, Bool, List, [], Some, IfOk, length, false, take, drop, reverse, is_some};
ghost use Rattle.std.specs.Option.{option_copied};
ghost use Rattle.tocmark_write_pending.specs.Ahead.{character_after, character_before, comes_before, disturbers, HoldMarks, AreDisturbed};
ghost use Rattle.tocmark_event.specs.Options.{OptionsView};
ghost use Rattle.tocmark_event.specs.View.{SourcedEvent, tag_view};
ghost use Rattle.tocmark_event.specs.declared.event.flags.ParserOptions.{ParserOptions};
ghost use Rattle.tocmark_spelling.specs.Buffered.{buffered_view};
ghost use Rattle.tocmark_spelling.specs.Edges.{edge_before, edge_after};
ghost use Rattle.tocmark_spelling.specs.Page.{front};
ghost use Rattle.tocmark_spelling.specs.PlanOf.{setting_of};
ghost use Rattle.tocmark_spelling.specs.Runs.{close_width, counts, disturbs_at, run_after, run_before, start_width};
ghost use Rattle.tocmark_spelling.specs.Runs as spelled;
ghost use Rattle.tocmark_write_emphasis.specs.Marks.{closes_at, mark_of, AreEventsOf};
ghost use Rattle.tocmark_write_pending.specs.RunColumn.{run_here, run_view};
ghost use Rattle.tocmark_spelling.specs.Plan.{Setting};
ghost use Rattle.tocmark_spelling.specs.Scans.{AreEnds};

use crate::boundary::is_boundary;
use std::alloc::{AllocError, Global};
use tocmark_event::event::{EventOf, TagOf};
use tocmark_event::reader::Reader;
use tocmark_spelling::buffered::BufferedEvent;
use tocmark_write_pending::edges::{first_edge, last_edge};
use tocmark_write_pending::ends::{body_end, end_at};
use tocmark_write_pending::pending::Pending;
use tocmark_write_pending::runs::{Run, is_finish, is_start};

/// Whether an asterisk is needed that could close emphasis, given which characters are boundaries.
fn closes_between(before: Option<char>, at_before: bool, at_first: bool, at_after: bool) -> bool
    ensures { result ≡ ((not at_before || not at_after) && closes_at before at_before at_first) }
{
    match before {
        None => false,
        Some(character) => {
            (!at_before || !at_after) && !character.is_whitespace() && (!at_before || at_first)
        }
    }
}

/// The characters round a node.
#[derive(Clone, Copy)]
struct Characters {
    /// The one before its start.
    before: Option<char>,
    /// The one after its start.
    first: Option<char>,
    /// The one after its end.
    after: Option<char>,
}

/// Whether the markers between these characters would be asterisks that could close the emphasis round
/// them.
fn disturbs_at<R: Reader>(alloc: Global, reader: &R, round: Characters) -> Result<bool, AllocError>
    ensures { (o : OptionsView) (flags : ParserOptions) (label : Option (List ℕ))
        → IfOk result (λ disturbs.
        disturbs ≡ disturbs_at (setting_of o flags (R.reading reader.now) label)
        round.before round.first round.after) }
{
    let at_before = is_boundary(alloc, reader, round.before)?;
    let at_first = is_boundary(alloc, reader, round.first)?;
    let at_after = is_boundary(alloc, reader, round.after)?;
    Ok(closes_between(round.before, at_before, at_first, at_after))
}

/// By runs emphasis and strong emphasis count, else the former alone.
fn counts(tag: &TagOf<String>, runs: bool) -> bool
    ensures { result ≡ counts runs (tag_view string_bytes tag.now) }
{
    match tag {
        TagOf::Emphasis => true,
        TagOf::Strong => runs,
        _ => false,
    }
}

/// The character before a run, if one is given.
fn before_run(run: Option<Run>) -> Option<char>
    ensures { (r : spelled.Run) → option_map run_view run ≡ Some r → result ≡ r.before }
{
    match run {
        Some(run) => run.before,
        None => None,
    }
}

/// The character after a run, if one is given.
fn behind_run(run: Option<Run>) -> Option<char>
    ensures { (r : spelled.Run) → option_map run_view run ≡ Some r → result ≡ r.after }
{
    match run {
        Some(run) => run.after,
        None => None,
    }
}

/// The character before the run of starts that ends with the event at a place of a unit, or before what
/// follows the event.
fn before_starts(event: &BufferedEvent, unit: &Pending, place: usize) -> Option<char>
    ensures { let e = buffered_view event.now in
        let es = unit.now.events in (rest : List SourcedEvent) → drop place es ≡ e ∷ rest
        → result ≡ run_before start_width (e ∷ reverse (take place es)) }
{
    if is_start(event) {
        before_run(unit.run_at(place))
    } else {
        last_edge(event)
    }
}

/// The character after the run of starts that begins with the event at a place of a unit, or that of
/// the event.
fn behind_starts(event: &BufferedEvent, unit: &Pending, place: usize) -> Option<char>
    ensures { let e = buffered_view event.now in (rest : List SourcedEvent)
        → drop place unit.now.events ≡ e ∷ rest → result ≡ run_after start_width (e ∷ rest) }
{
    if is_start(event) {
        behind_run(unit.run_at(place))
    } else {
        first_edge(event)
    }
}

/// The character after the run of ends that begins with the event at a place of a unit, or that of the
/// event.
fn behind_ends(event: &BufferedEvent, unit: &Pending, place: usize) -> Option<char>
    ensures { let e = buffered_view event.now in (rest : List SourcedEvent)
        → drop place unit.now.events ≡ e ∷ rest → result ≡ run_after close_width (e ∷ rest) }
{
    if is_finish(event) {
        behind_run(unit.run_at(place))
    } else {
        first_edge(event)
    }
}

/// The character before the run of starts that ends just before a place.
fn beyond_before(unit: &Pending, place: usize) -> Option<char>
    requires { place ≤ length unit.now.events }
    ensures { result ≡ run_before start_width (reverse (take place unit.now.events)) }
{
    let events = unit.events();
    if place == 0 {
        None
    } else {
        before_starts(&events[place - 1], unit, place - 1)
    }
}

/// The character after the run of starts that goes on just after a place.
fn beyond_starts(unit: &Pending, place: usize) -> Option<char>
    ensures { result ≡ run_after start_width (drop (place + 1) unit.now.events) }
{
    let events = unit.events();
    if place < events.len().saturating_sub(1) {
        behind_starts(&events[place + 1], unit, place + 1)
    } else {
        None
    }
}

/// The character after the run of ends that goes on just after a place.
fn beyond_ends(unit: &Pending, place: usize) -> Option<char>
    ensures { result ≡ run_after close_width (drop (place + 1) unit.now.events) }
{
    let events = unit.events();
    if place < events.len().saturating_sub(1) {
        behind_ends(&events[place + 1], unit, place + 1)
    } else {
        None
    }
}

/// The characters beyond the runs round the node that starts at a place and ends at another one.
fn beyond_runs(unit: &Pending, place: usize, end: usize) -> Characters
    requires { place ≤ length unit.now.events }
    ensures before { result.before ≡ run_before start_width (reverse (take place unit.now.events)) }
    ensures first { result.first ≡ run_after start_width (drop (place + 1) unit.now.events) }
    ensures after { result.after ≡ run_after close_width (drop (end + 1) unit.now.events) }
{
    Characters {
        before: beyond_before(unit, place),
        first: beyond_starts(unit, place),
        after: beyond_ends(unit, end),
    }
}

/// The last character of the event before a place, as its neighbour there sees it.
fn edge_before(events: &[BufferedEvent], place: usize) -> Option<char>
    requires { place ≤ length events.now }
    ensures { result
        ≡ edge_before (front (reverse (take place (map buffered_view events.now)))) }
{
    if place == 0 {
        None
    } else {
        last_edge(&events[place - 1])
    }
}

/// The first character of the event at a place, as its neighbour before it sees it.
fn edge_at(events: &[BufferedEvent], place: usize) -> Option<char>
    ensures { result ≡ edge_after (front (drop place (map buffered_view events.now))) }
{
    if place < events.len() {
        first_edge(&events[place])
    } else {
        None
    }
}

fn edge_behind(events: &[BufferedEvent], place: usize) -> Option<char>
    ensures { result ≡ edge_after (front (drop (place + 1) (map buffered_view events.now))) }
{
    if place < events.len() {
        edge_at(events, place + 1)
    } else {
        None
    }
}

/// The characters of the neighbours of the node that starts at a place and ends at another one.
fn beside(events: &[BufferedEvent], place: usize, end: usize) -> Characters
    requires { place ≤ length events.now }
    ensures before { result.before
        ≡ edge_before (front (reverse (take place (map buffered_view events.now)))) }
    ensures first { result.first
        ≡ edge_after (front (drop (place + 1) (map buffered_view events.now))) }
    ensures after { result.after
        ≡ edge_after (front (drop (end + 1) (map buffered_view events.now))) }
{
    Characters {
        before: edge_before(events, place),
        first: edge_behind(events, place),
        after: edge_behind(events, end),
    }
}

/// The characters round such a node: those beyond the runs there, or of its neighbours where no unit
/// is given.
fn characters_round(
    events: &[BufferedEvent],
    by_runs: Option<&Pending>,
    place: usize,
    end: usize,
) -> Characters
    requires place { place < length events.now }
    requires by_runs { AreEventsOf (map buffered_view events.now) (option_copied by_runs) }
    ensures before { result.before ≡ character_before (is_some by_runs.entry)
        (reverse (take place (map buffered_view events.now))) }
    ensures first { result.first ≡ character_after (is_some by_runs.entry) start_width
        (drop (place + 1) (map buffered_view events.now)) }
    ensures after { result.after ≡ character_after (is_some by_runs.entry) close_width
        (drop (end + 1) (map buffered_view events.now)) }
{
    match by_runs {
        None => beside(events, place, end),
        Some(unit) => beyond_runs(unit, place, end),
    }
}

/// Whether an event starts a node that disturbs, given its place and where its body ends; by its
/// neighbours alone where no unit is given. Characters are looked at where a node starts that counts.
fn mark_at<R: Reader>(
    alloc: Global,
    reader: &R,
    events: &[BufferedEvent],
    event: &BufferedEvent,
    by_runs: Option<&Pending>,
    places: (usize, usize),
) -> Result<bool, AllocError>
    requires place { places.0 < length events.now }
    requires by_runs { AreEventsOf (map buffered_view events.now) (option_copied by_runs) }
    ensures { (o : OptionsView) (flags : ParserOptions) (label : Option (List ℕ))
        → IfOk result (λ mark.
        mark ≡ mark_of (setting_of o flags (R.reading reader.now) label) (is_some by_runs.entry)
        (buffered_view event.now)
        (character_before (is_some by_runs.entry)
        (reverse (take places.0 (map buffered_view events.now))))
        (character_after (is_some by_runs.entry) start_width
        (drop (places.0 + 1) (map buffered_view events.now)))
        (character_after (is_some by_runs.entry) close_width
        (drop (places.1 + 1) (map buffered_view events.now)))) }
{
    match &event.event {
        EventOf::Start(tag) => {
            if counts(tag, by_runs.is_some()) {
                disturbs_at(
                    alloc,
                    reader,
                    characters_round(events, by_runs, places.0, places.1),
                )
            } else {
                Ok(false)
            }
        }
        _ => Ok(false),
    }
}

/// For each event whether it starts a node whose markers would be asterisks that could close the
/// emphasis round them; by neighbours alone where no unit is given.
fn disturbers<R: Reader>(
    alloc: Global,
    reader: &R,
    events: &[BufferedEvent],
    ends: &[Option<usize>],
    by_runs: Option<&Pending>,
) -> Result<Vec<bool>, AllocError>
    requires ends { AreEnds (map buffered_view events.now) ends.now }
    requires by_runs { AreEventsOf (map buffered_view events.now) (option_copied by_runs) }
    ensures len { IfOk result (λ marks. length marks.items ≡ length events.now) }
    ensures marks { (o : OptionsView) (flags : ParserOptions) (label : Option (List ℕ))
        → IfOk result (λ marks.
        marks.items
        ≡ disturbers (setting_of o flags (R.reading reader.now) label) (is_some by_runs.entry) []
        (map buffered_view events.now)) }
{
    let mut marks = Vec::with_capacity(alloc, events.len())?;
    for event in events {
        let i = marks.len();
        let places = (i, body_end(ends, i));
        let mark = mark_at(alloc, reader, events, event, by_runs, places)?;
        marks.push(mark)?;
    }
    Ok(marks)
}

/// Whether there is a place and it comes before an end; any does where there is no end.
fn comes_before(place: Option<usize>, end: Option<usize>) -> bool
    ensures { result ≡ comes_before place end }
{
    match (place, end) {
        (None, _) => false,
        (Some(_), None) => true,
        (Some(place), Some(end)) => place < end,
    }
}

fn nearer(is_marked: bool, place: usize, nearest: Option<usize>) -> Option<usize>
    ensures { result ≡ (if is_marked then Some place else nearest) }
{
    if is_marked { Some(place) } else { nearest }
}

/// For each place whether one after it and before its end is marked, or one after it where it
/// has no end.
///
/// Where the marks are at the starts that would need asterisks that could close what is round them,
/// that is whether a container prefers the underscore.
fn marks_within(
    alloc: Global,
    marks: &[bool],
    ends: &[Option<usize>],
) -> Result<Vec<bool>, AllocError>
    requires { length ends.now ≡ length marks.now }
    ensures marked { IfOk result (λ found. HoldMarks marks.now ends.now found.items) }
    ensures disturbed { (s : Setting) (runs : Bool) (es : List SourcedEvent)
        → marks.now ≡ disturbers s runs [] es → AreEnds es ends.now
        → IfOk result (λ found. AreDisturbed s runs es found.items) }
{
    let mut found = vec![in alloc; false; marks.len()]?;
    let mut nearest = None;
    let mut i = marks.len();
    while i > 0 {
        i -= 1;
        found[i] = comes_before(nearest, end_at(ends, i));
        nearest = nearer(marks[i], i, nearest);
    }
    Ok(found)
}

/// For each Start whether it prefers `_`: a node inside it would have asterisks that could close it. If
/// `by_runs` is empty, this is decided by the neighbours of each node alone.
pub fn preferences<R: Reader>(
    alloc: Global,
    reader: &R,
    by_runs: Option<&Pending>,
    events: &[BufferedEvent],
    ends: &[Option<usize>],
) -> Result<Vec<bool>, AllocError>
    requires ends { AreEnds (map buffered_view events.now) ends.now }
    requires by_runs { AreEventsOf (map buffered_view events.now) (option_copied by_runs) }
    ensures { (o : OptionsView) (flags : ParserOptions) (label : Option (List ℕ))
        → IfOk result (λ found.
        AreDisturbed (setting_of o flags (R.reading reader.now) label) (is_some by_runs.entry)
        (map buffered_view events.now) found.items) }
{
    let marks = disturbers(alloc, reader, events, ends, by_runs)?;
    marks_within(alloc, &marks, ends)
}
