//! The runs of delimiters in a unit. An event changes the last one alone.

ghost use Rattle.std.specs.Prelude.{◌≡◌, ◌∷◌, ◌++◌, ◌+◌, ◌<◌, ◌≤◌, ◌&&◌, ◌||◌, ℕ, not, [], if◌then◌else◌, length, map, reverse, vec_capacity, IfOk, OnErr, OnOk, Some, drop, option_map, slice_get, slice_index_or, take, true};
ghost use Rattle.tocmark_spelling.specs.Buffered.{buffered_view};
ghost use Rattle.tocmark_spelling.specs.Edges.{edge_before};
ghost use Rattle.tocmark_spelling.specs.Page.{front};
ghost use Rattle.tocmark_spelling.specs.Runs.{marker_only, text_only};
ghost use Rattle.tocmark_write_pending.specs.DelimiterColumn.{AreNumbered, numbers_of, widths_of};
ghost use Rattle.tocmark_write_pending.specs.RunColumn.{Starts, Ends, AreRuns, HoldRuns, begins_in_run, begun_by, bordered, ends_counted, ends_run, goes_on, in_run, is_counted, own_width, run_here, run_numbered, run_view, wider};

use crate::delimiters::{Delimiter, note_run, number_at};
use crate::edges::{first_edge, first_literal, last_edge, last_literal};
use crate::room::{make_room, make_room_up_to};
use std::alloc::AllocError;
use tocmark_event::event::{EventOf, TagEnd, TagOf};
use tocmark_spelling::buffered::BufferedEvent;

/// A run of delimiters in the events of a unit.
#[derive(Clone, Copy)]
pub struct Run {
    /// The characters before and after it, as they are seen beside delimiters; none at the border of
    /// a block.
    pub before: Option<char>,
    pub after: Option<char>,
    /// The `*` or `_` with which a text before it ends, and with which a text after it begins.
    pub literal_before: Option<char>,
    pub literal_after: Option<char>,
    /// How many markers it has.
    pub width: usize,
}

/// Whether an event starts emphasis or strong emphasis.
pub fn is_start(event: &BufferedEvent) -> bool
    ensures { result ≡ is_counted Starts (buffered_view event.now) }
{
    match &event.event {
        EventOf::Start(TagOf::Emphasis) => true,
        EventOf::Start(TagOf::Strong) => true,
        _ => false,
    }
}

/// Whether an event ends emphasis or strong emphasis.
pub fn is_finish(event: &BufferedEvent) -> bool
    ensures { result ≡ is_counted Ends (buffered_view event.now) }
{
    match &event.event {
        EventOf::End(TagEnd::Emphasis) => true,
        EventOf::End(TagEnd::Strong) => true,
        _ => false,
    }
}

/// How many markers an event adds to a run.
fn own_width(event: &BufferedEvent) -> usize
    ensures { result ≡ own_width (buffered_view event.now) }
{
    match &event.event {
        EventOf::Start(TagOf::Emphasis) => 1,
        EventOf::Start(TagOf::Strong) => 2,
        EventOf::End(TagEnd::Emphasis) => 1,
        EventOf::End(TagEnd::Strong) => 2,
        _ => 0,
    }
}

fn in_run(event: &BufferedEvent) -> bool
    ensures { result ≡ in_run (buffered_view event.now) }
{
    is_start(event) || is_finish(event)
}

fn ends_starts(events: &[BufferedEvent]) -> bool
    ensures { result ≡ ends_counted Starts (reverse (map buffered_view events.now)) }
{
    match events.last() {
        Some(event) => is_start(event),
        None => false,
    }
}

fn ends_finishes(events: &[BufferedEvent]) -> bool
    ensures { result ≡ ends_counted Ends (reverse (map buffered_view events.now)) }
{
    match events.last() {
        Some(event) => is_finish(event),
        None => false,
    }
}

/// Whether events end with a run.
fn ends_run(events: &[BufferedEvent]) -> bool
    ensures { result ≡ ends_run (reverse (map buffered_view events.now)) }
{
    ends_starts(events) || ends_finishes(events)
}

/// Whether an event goes on with the run with which events end.
fn goes_on(event: &BufferedEvent, events: &[BufferedEvent]) -> bool
    ensures { result ≡ goes_on (buffered_view event.now) (reverse (map buffered_view events.now)) }
{
    (ends_starts(events) && is_start(event)) || (ends_finishes(events) && is_finish(event))
}

/// A run that goes on. An `Err` says that it is as long as no text can be.
fn wider(run: Run, width: usize) -> Result<Run, AllocError>
    ensures { IfOk result (λ new. run_view new ≡ wider width (run_view run)) }
{
    let width = run.width.checked_add(width).ok_or(AllocError)?;
    Ok(Run { width, ..run })
}

/// A run after which an event is.
fn bordered(run: Run, event: &BufferedEvent) -> Run
    ensures { run_view result ≡ bordered (buffered_view event.now) (run_view run) }
{
    Run {
        after: first_edge(event),
        literal_after: first_literal(event),
        ..run
    }
}

fn edge_of_last(events: &[BufferedEvent]) -> Option<char>
    ensures { result ≡ edge_before (front (reverse (map buffered_view events.now))) }
{
    match events.last() {
        Some(event) => last_edge(event),
        None => None,
    }
}

fn literal_of_last(events: &[BufferedEvent]) -> Option<char>
    ensures { result
        ≡ marker_only (edge_before (text_only (front (reverse (map buffered_view events.now))))) }
{
    match events.last() {
        Some(event) => last_literal(event),
        None => None,
    }
}

/// The run that begins with an event after others.
fn begun_by(event: &BufferedEvent, events: &[BufferedEvent]) -> Run
    ensures { run_view result
        ≡ begun_by (buffered_view event.now) (reverse (map buffered_view events.now)) }
{
    Run {
        before: edge_of_last(events),
        after: None,
        literal_before: literal_of_last(events),
        literal_after: None,
        width: own_width(event),
    }
}

/// Puts a run where there is room for it.
fn put(runs: &mut Vec<Run>, run: Run)
    requires room { length runs.old.items < vec_capacity runs.old }
    ensures items { runs.new.items ≡ runs.old.items ++ run ∷ [] }
    ensures capacity { vec_capacity runs.old ≤ vec_capacity runs.new }
{
    let _room = runs.push(run);
}

/// The last run, as an event after others changes it. An `Err` says that it is as long as no text can
/// be.
fn changed(run: Run, event: &BufferedEvent, events: &[BufferedEvent]) -> Result<Run, AllocError>
    ensures { let e = buffered_view event.now in
        let back = reverse (map buffered_view events.now) in
        IfOk result (λ new. run_view new
        ≡ (if goes_on e back then wider (own_width e) (run_view run)
        else (if ends_run back then bordered e (run_view run) else run_view run))) }
{
    if goes_on(event, events) {
        wider(run, own_width(event))
    } else if ends_run(events) {
        Ok(bordered(run, event))
    } else {
        Ok(run)
    }
}

/// Changes the last run, if there is one, now that an event is after the others. At an `Err` all is
/// as it was.
fn change_last(
    runs: &mut Vec<Run>,
    event: &BufferedEvent,
    events: &[BufferedEvent],
) -> Result<(), AllocError>
    requires { HoldRuns (reverse (map buffered_view events.now))
        (reverse (map run_view runs.old.items)) }
    ensures changed { OnOk result (AreRuns (reverse (map run_view runs.new.items))
        (reverse (map buffered_view events.now)) (buffered_view event.now ∷ [])) }
    ensures count { length runs.new.items ≡ length runs.old.items }
    ensures same { OnErr result (runs.new.items ≡ runs.old.items) }
    ensures room { length runs.old.items < vec_capacity runs.old
        → length runs.new.items < vec_capacity runs.new }
{
    if runs.is_empty() {
        return Ok(());
    }
    let last = runs.len() - 1;
    runs[last] = changed(runs[last], event, events)?;
    Ok(())
}

fn begins_run(event: &BufferedEvent, events: &[BufferedEvent]) -> bool
    ensures { let e = buffered_view event.now in
        result ≡ (in_run e && not (goes_on e (reverse (map buffered_view events.now)))) }
{
    in_run(event) && !goes_on(event, events)
}

/// Begins a run with an event after others, if it begins one. The last run has been changed.
fn begin_run(runs: &mut Vec<Run>, event: &BufferedEvent, events: &[BufferedEvent])
    requires room { length runs.old.items < vec_capacity runs.old }
    ensures { let e = buffered_view event.now in
        let back = reverse (map buffered_view events.now) in
        let old = reverse (map run_view runs.old.items) in
        reverse (map run_view runs.new.items)
        ≡ (if in_run e && not (goes_on e back) then begun_by e back ∷ old else old) }
{
    if begins_run(event, events) {
        put(runs, begun_by(event, events));
    }
}

/// Adds a delimiter after other events to the runs. At an `Err` they are as they were.
fn join_delimiter(
    runs: &mut Vec<Run>,
    delimiters: &mut Vec<Delimiter>,
    event: &BufferedEvent,
    events: &[BufferedEvent],
) -> Result<(), AllocError>
    requires held { HoldRuns (reverse (map buffered_view events.now))
        (reverse (map run_view runs.old.items)) }
    requires numbered { AreNumbered (map buffered_view events.now)
        (numbers_of delimiters.old.items) }
    requires delimiter { in_run (buffered_view event.now) ≡ true }
    ensures held { OnOk result (HoldRuns
        (buffered_view event.now ∷ reverse (map buffered_view events.now))
        (reverse (map run_view runs.new.items))) }
    ensures numbered { OnOk result (AreNumbered
        (map buffered_view events.now ++ buffered_view event.now ∷ [])
        (numbers_of delimiters.new.items)) }
    ensures widths { OnOk result ((i : ℕ) → slice_index_or (widths_of delimiters.new.items) i 0
        ≡ slice_index_or (widths_of delimiters.old.items) i 0) }
    ensures runs { OnErr result (runs.new.items ≡ runs.old.items) }
    ensures delimiters { OnErr result (delimiters.new.items ≡ delimiters.old.items) }
{
    let place = events.len();
    make_room_up_to(delimiters, place)?;
    make_room(runs)?;
    change_last(runs, event, events)?;
    begin_run(runs, event, events);
    note_run(delimiters, place, runs.len());
    Ok(())
}

/// Whether events end with a run. Without delimiters this is false at once.
fn ends_known_run(delimiters: &[Delimiter], events: &[BufferedEvent]) -> bool
    requires { AreNumbered (map buffered_view events.now) (numbers_of delimiters.now) }
    ensures { result ≡ ends_run (reverse (map buffered_view events.now)) }
{
    !delimiters.is_empty() && ends_run(events)
}

/// Adds an event after others to the runs, and what is kept of it. At an `Err` all is as it was.
pub(crate) fn join_runs(
    runs: &mut Vec<Run>,
    delimiters: &mut Vec<Delimiter>,
    event: &BufferedEvent,
    events: &[BufferedEvent],
) -> Result<(), AllocError>
    requires held { HoldRuns (reverse (map buffered_view events.now))
        (reverse (map run_view runs.old.items)) }
    requires numbered { AreNumbered (map buffered_view events.now)
        (numbers_of delimiters.old.items) }
    ensures held { OnOk result (HoldRuns
        (buffered_view event.now ∷ reverse (map buffered_view events.now))
        (reverse (map run_view runs.new.items))) }
    ensures numbered { OnOk result (AreNumbered
        (map buffered_view events.now ++ buffered_view event.now ∷ [])
        (numbers_of delimiters.new.items)) }
    ensures widths { OnOk result ((i : ℕ) → slice_index_or (widths_of delimiters.new.items) i 0
        ≡ slice_index_or (widths_of delimiters.old.items) i 0) }
    ensures runs { OnErr result (runs.new.items ≡ runs.old.items) }
    ensures delimiters { OnErr result (delimiters.new.items ≡ delimiters.old.items) }
{
    if in_run(event) {
        join_delimiter(runs, delimiters, event, events)
    } else if ends_known_run(delimiters, events) {
        change_last(runs, event, events)
    } else {
        Ok(())
    }
}

/// The run at a place among the runs.
fn run_in(runs: &[Run], index: usize) -> Option<Run>
    ensures { result ≡ slice_get runs.now index }
{
    runs.get(index).copied()
}

/// The run with a number, counted from 1.
fn run_numbered(runs: &[Run], number: usize) -> Option<Run>
    ensures { option_map run_view result ≡ run_numbered number (reverse (map run_view runs.now)) }
{
    if number == 0 {
        None
    } else {
        run_in(runs, number - 1)
    }
}

fn is_in_run(events: &[BufferedEvent], place: usize) -> bool
    ensures { result ≡ begins_in_run (drop place (map buffered_view events.now)) }
{
    if place < events.len() {
        in_run(&events[place])
    } else {
        false
    }
}

/// The run in which the event at a place is, if it is in one.
pub(crate) fn run_at(
    events: &[BufferedEvent],
    runs: &[Run],
    delimiters: &[Delimiter],
    place: usize,
) -> Option<Run>
    requires held { HoldRuns (reverse (map buffered_view events.now))
        (reverse (map run_view runs.now)) }
    requires numbered { AreNumbered (map buffered_view events.now) (numbers_of delimiters.now) }
    ensures { let es = map buffered_view events.now in
        option_map run_view result ≡ run_here (reverse (take place es)) (drop place es) }
{
    if is_in_run(events, place) {
        run_numbered(runs, number_at(delimiters, place))
    } else {
        None
    }
}
