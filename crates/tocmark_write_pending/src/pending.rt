//! The events that wait for their unit, with what is found out of them as they come.

ghost use Rattle.std.specs.Prelude.{◌≡◌, ◌<◌, ◌==◌, ◌∷◌, ◌++◌, [], drop, length, map, option_map, reverse, string_bytes, take, vec_capacity, IfOk, OnErr, OnOk, ℕ, is_some, slice_index_or};
ghost use Rattle.tocmark_event.specs.View.{event_view};
ghost use Rattle.tocmark_spelling.specs.Buffered.{buffered_view, sourced};
ghost use Rattle.tocmark_spelling.specs.Scans.{AreEnds};
ghost use Rattle.tocmark_write_pending.specs.Pending.{Joins, nothing_pending, text_now};
ghost use Rattle.tocmark_write_pending.specs.DelimiterColumn.{AreNumbered, numbers_of, widths_of};
ghost use Rattle.tocmark_write_pending.specs.RunColumn.{HoldRuns, run_here, run_view};
ghost use Rattle.tocmark_write_pending.specs.Units.{trees_of, waits};
ghost use Rattle.tocmark_write_pending.specs.WidthColumn.{width_at};

use crate::delimiters::{Delimiter, note_width, width_at};
use crate::incoming::Incoming;
use crate::nesting::{OpenContainer, can_come, ended_by, nest, note_end};
use crate::placeholder::is_ambiguous_behind;
use crate::room::make_room;
use crate::runs::{Run, join_runs, run_at};
use crate::widths::ended_width;
use std::alloc::{AllocError, Global};
use std::marker::Model;
use tocmark_event::options::Error;
use tocmark_spelling::buffered::BufferedEvent;

/// Events that wait for their unit. Each End among them is the innermost open container's.
///
/// Where no container is open the events are those of whole trees: that needn't be found out again.
/// Nor need what is kept beside them, to which each event adds in a constant number of steps, but for
/// the room that it takes at times.
#[derive(Drop)]
pub struct Pending {
    events: Vec<BufferedEvent>,
    /// The open containers, outermost first.
    containers: Vec<OpenContainer>,
    /// For each event that starts a container the place where that ends, if it has ended; `None` for
    /// others.
    ends: Vec<Option<usize>>,
    /// The runs of delimiters, in order.
    runs: Vec<Run>,
    /// For each event up to the last delimiter its run, and how many markers it opens with.
    delimiters: Vec<Delimiter>,
    /// Whether a list among the events needs a placeholder. That only goes from false to true.
    is_ambiguous: bool,
}

impl Model for Pending {
    ghost use Rattle.tocmark_write_pending.specs.Pending.{PendingView};

    ghost Value = { PendingView };

    ghost use Rattle.tocmark_write_pending.specs.PendingOf.{IsIndexed, pending_of};

    ghost view = { pending_of };

    ghost invariant = { IsIndexed };
}

fn copied_source(alloc: Global, source: Option<&str>) -> Result<Option<String>, AllocError>
    ensures { IfOk result (λ copy. option_map string_bytes copy ≡ text_now source.entry) }
{
    match source {
        Some(text) => Ok(Some(String::from_str(alloc, text)?)),
        None => Ok(None),
    }
}

/// Puts an event with texts of its own after others, with a copy of its spelling in the source where
/// that is known. There is room for it.
fn push_event<E: Incoming + Drop>(
    events: &mut Vec<BufferedEvent>,
    alloc: Global,
    event: E,
    source: Option<&str>,
) -> Result<(), AllocError>
    requires room { length events.old.items < vec_capacity events.old }
    ensures put { OnOk result ((b : BufferedEvent) × (events.new.items ≡ events.old.items ++ b ∷ [])
        × (event_view string_bytes b.event ≡ E.event event)
        × (buffered_view b ≡ sourced (E.event event) (text_now source.entry))) }
    ensures same { OnErr result (events.new.items ≡ events.old.items) }
{
    let source = copied_source(alloc, source)?;
    let event = event.into_owned(alloc)?;
    let _room = events.push(BufferedEvent { event, source });
    Ok(())
}

/// Adds an event after others, and to their runs. There is room for it. At an `Err` all is as it was.
fn add<E: Incoming + Drop>(
    events: &mut Vec<BufferedEvent>,
    runs: &mut Vec<Run>,
    delimiters: &mut Vec<Delimiter>,
    alloc: Global,
    event: E,
    source: Option<&str>,
) -> Result<(), AllocError>
    requires room { length events.old.items < vec_capacity events.old }
    requires held { HoldRuns (reverse (map buffered_view events.old.items))
        (reverse (map run_view runs.old.items)) }
    requires numbered { AreNumbered (map buffered_view events.old.items)
        (numbers_of delimiters.old.items) }
    ensures put { OnOk result ((b : BufferedEvent) × (events.new.items ≡ events.old.items ++ b ∷ [])
        × (event_view string_bytes b.event ≡ E.event event)
        × (buffered_view b ≡ sourced (E.event event) (text_now source.entry))
        × HoldRuns (buffered_view b ∷ reverse (map buffered_view events.old.items))
        (reverse (map run_view runs.new.items))
        × AreNumbered (map buffered_view events.old.items ++ buffered_view b ∷ [])
        (numbers_of delimiters.new.items)) }
    ensures widths { OnOk result ((i : ℕ) → slice_index_or (widths_of delimiters.new.items) i 0
        ≡ slice_index_or (widths_of delimiters.old.items) i 0) }
    ensures events { OnErr result (events.new.items ≡ events.old.items) }
    ensures runs { OnErr result (runs.new.items ≡ runs.old.items) }
    ensures delimiters { OnErr result (delimiters.new.items ≡ delimiters.old.items) }
{
    let place = events.len();
    push_event(events, alloc, event, source)?;
    let joined = join_runs(runs, delimiters, &events[place], &events[..place]);
    if joined.is_err() {
        events.truncate(place);
    }
    joined
}

fn copied_event(alloc: Global, buffered: &BufferedEvent) -> Result<BufferedEvent, AllocError>
    ensures { IfOk result (λ copy. buffered_view copy ≡ buffered_view buffered.now) }
{
    let event = buffered.event.copied(alloc)?;
    let source = match &buffered.source {
        Some(text) => copied_source(alloc, Some(text.as_str()))?,
        None => None,
    };
    Ok(BufferedEvent { event, source })
}

fn copied_events(alloc: Global, events: &[BufferedEvent]) -> Result<Vec<BufferedEvent>, AllocError>
    ensures { IfOk result (λ copies. map buffered_view copies.items
        ≡ map buffered_view events.now) }
{
    let mut copies = Vec::new(alloc);
    for buffered in events {
        copies.push(copied_event(alloc, buffered)?)?;
    }
    Ok(copies)
}

impl Pending {
    /// No event waits.
    pub fn new(alloc: Global) -> Pending
        ensures { result ≡ nothing_pending }
    {
        Pending {
            events: Vec::new(alloc),
            containers: Vec::new(alloc),
            ends: Vec::new(alloc),
            runs: Vec::new(alloc),
            delimiters: Vec::new(alloc),
            is_ambiguous: false,
        }
    }

    /// The events, in the order in which they came.
    pub fn events(&self) -> &[BufferedEvent]
        ensures { map buffered_view result.now ≡ self.now.events }
    {
        self.events.as_slice()
    }

    /// For each event that starts a container the place among the events where that ends, if it has
    /// ended; `None` for others.
    ///
    /// ```
    /// let mut pending = Pending::new(alloc);
    /// pending.join(alloc, &Event::Start(Tag::Paragraph), None)?;
    /// pending.join(alloc, &Event::End(TagEnd::Paragraph), None)?;
    /// assert!(pending.ends() == [Some(1), None]);
    /// ```
    pub fn ends(&self) -> &[Option<usize>]
        ensures { AreEnds self.now.events result.now }
    {
        self.ends.as_slice()
    }

    /// The run of delimiters in which the event at a place is: the longest stretch of starts of
    /// emphasis and strong emphasis round it, or of their ends. `None` for other events.
    ///
    /// ```
    /// let mut pending = Pending::new(alloc);
    /// pending.join(alloc, &Event::Start(Tag::Emphasis), None)?;
    /// pending.join(alloc, &Event::Start(Tag::Strong), None)?;
    /// assert!(pending.run_at(0).map(|run| run.width) == Some(3));
    /// ```
    pub fn run_at(&self, place: usize) -> Option<Run>
        ensures { option_map run_view result
            ≡ run_here (reverse (take place self.now.events)) (drop place self.now.events) }
    {
        run_at(&self.events, &self.runs, &self.delimiters, place)
    }

    /// How many markers the container opens with that starts at a place, if it has ended: its own, and
    /// those of a first child that is emphasis or strong emphasis. 0 for another event.
    ///
    /// ```
    /// let mut pending = Pending::new(alloc);
    /// pending.join(alloc, &Event::Start(Tag::Emphasis), None)?;
    /// pending.join(alloc, &Event::Start(Tag::Strong), None)?;
    /// pending.join(alloc, &Event::End(TagEnd::Strong), None)?;
    /// pending.join(alloc, &Event::End(TagEnd::Emphasis), None)?;
    /// assert!(pending.width_at(0) == 3 && pending.width_at(1) == 2);
    /// ```
    pub fn width_at(&self, place: usize) -> usize
        ensures { result ≡ width_at (drop place self.now.events) }
    {
        width_at(&self.delimiters, place)
    }

    /// Whether no event waits.
    pub fn is_empty(&self) -> bool
        ensures { result ≡ (length self.now.events == 0) }
    {
        self.events.is_empty()
    }

    /// Whether no container is open, so that the events are those of whole trees, if there are any.
    pub fn is_whole(&self) -> bool
        ensures closed { result ≡ (length self.now.open_tags == 0) }
        ensures whole { result ≡ is_some (trees_of self.now.events) }
    {
        self.containers.is_empty()
    }

    /// Whether the unit waits for a label that only the end of the events can give: a list in it needs
    /// a placeholder, since it would be read otherwise without one.
    ///
    /// A list needs one if its first item is empty and it comes just after inline content. It also
    /// needs one if its only item holds a single paragraph and nothing else. A unit in which a container
    /// is open waits for nothing.
    pub fn needs_placeholder(&self) -> bool
        ensures { result ≡ waits self.now.events }
    {
        self.is_whole() && self.is_ambiguous
    }

    /// Adds an event, with a copy of what stands for it in the source where that is known. A lent event
    /// is copied, and of one that is given away the texts are moved.
    ///
    /// An `Err` is `UnexpectedEvent` for an End that isn't the innermost open container's, or
    /// `OutOfMemory`; all is then as it was.
    pub fn join<E: Incoming + Drop>(
        &mut self,
        alloc: Global,
        event: E,
        source: Option<&str>,
    ) -> Result<(), Error>
        ensures { Joins self.old
            (sourced (E.event event) (text_now source.entry)) result self.new }
    {
        if !can_come(&self.containers, event.lent()) {
            return Err(Error::UnexpectedEvent);
        }
        let place = self.events.len();
        let ended = ended_by(&self.containers, event.lent());
        let is_ambiguous = is_ambiguous_behind(self.is_ambiguous, &self.events, &self.ends, ended);
        let width = ended_width(&self.events, &self.ends, &self.delimiters, ended)?;
        make_room(&mut self.containers)?;
        make_room(&mut self.ends)?;
        make_room(&mut self.events)?;
        add(
            &mut self.events,
            &mut self.runs,
            &mut self.delimiters,
            alloc,
            event,
            source,
        )?;
        nest(&mut self.containers, &self.events[place].event, place);
        self.is_ambiguous = is_ambiguous;
        note_end(&mut self.ends, ended);
        note_width(&mut self.delimiters, ended, width);
        Ok(())
    }

    /// Lets go of the events, and of what was found out of them. No container is open then.
    pub fn clear(&mut self)
        ensures { self.new ≡ nothing_pending }
    {
        self.events.clear();
        self.containers.clear();
        self.ends.clear();
        self.runs.clear();
        self.delimiters.clear();
        self.is_ambiguous = false;
    }

    /// A copy of the events.
    pub fn copied(&self, alloc: Global) -> Result<Pending, AllocError>
        ensures { IfOk result (λ copy. copy ≡ self.now) }
    {
        Ok(Pending {
            events: copied_events(alloc, &self.events)?,
            containers: Vec::from_slice(alloc, &self.containers)?,
            ends: Vec::from_slice(alloc, &self.ends)?,
            runs: Vec::from_slice(alloc, &self.runs)?,
            delimiters: Vec::from_slice(alloc, &self.delimiters)?,
            is_ambiguous: self.is_ambiguous,
        })
    }
}
