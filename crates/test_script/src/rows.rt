//! What is tried with each stored row. It is run `again`, with clones of the state and with writers and readers that
//! fail. And its units are written by renderers that go back.
//!
//! A row's events are cut into units. For a unit there is one renderer, which writes it in each manner in which
//! units are tried, in order, and in the first one again, each time after a mark, and goes back. The mark is
//! before the unit. Another renderer writes the unit's body, with the mark after its Start: there the container is
//! open, and some text, a definition, a quote line and a stretch of texts are there to come back to.
//!
//! Before and after each writing that renderer is compared with one of its own that wrote the same and has never
//! gone back: the text, the line feeds at its end, the definitions that it needs, what is carried along, the open
//! containers and the runs of markers, and after it also the quote line and the stretch.

use crate::again::Again;
use crate::report::Report;
use crate::script::Script;
use crate::trials::{Front, try_body, try_unit};
use crate::unit::Unit;
use std::alloc::{AllocError, Global};
use std::io::{self, Write};
use std::mem;
use tocmark_event::event::{Event, OwnedEvent, ParserOptions};
use tocmark_event::options::{Error, Options};
use tocmark_reader::CoreReader;
use tocmark_write_pending::pending::Pending;
use tocmark_write_unit::block::KnownUnit;
use tocmark_write_unit::findings::findings_of;

/// What is in the source for an event with a range.
fn spelling<'s>(source: &'s Option<String>, range: Option<(usize, usize)>) -> Option<&'s str> {
    match (source, range) {
        (Some(source), Some((start, end))) => source.as_str().get(start..end),
        _ => None,
    }
}

fn first_of(unit: &Pending) -> Option<&OwnedEvent> {
    match unit.events() {
        [first, ..] => Some(&first.event),
        [] => None,
    }
}

/// The events of a unit.
#[derive(Drop)]
struct Events {
    /// All of them.
    whole: Pending,
    /// Those between its first and its last one.
    body: Pending,
}

impl Events {
    fn none(alloc: Global) -> Events {
        Events {
            whole: Pending::new(alloc),
            body: Pending::new(alloc),
        }
    }
}

/// Adds an item to a list.
fn add<T: Drop>(list: &mut Vec<T>, item: T) -> Result<(), AllocError> {
    Ok(list.push(item)?)
}

/// The units of a row, up to an End that isn't the innermost open container's.
#[derive(Drop)]
struct Row<'r> {
    alloc: Global,
    options: Options<'r>,
    flags: ParserOptions,
    units: Vec<Events>,
    /// The events after the last unit, if a container in them is still open.
    pending: Events,
}

impl Row<'_> {
    /// Ends a unit here, if no container is open. Otherwise the event belongs to the body, unless it is
    /// the first one.
    fn end_unit(
        &mut self,
        event: &Event<'_>,
        source: Option<&str>,
        is_first: bool,
    ) -> Result<(), Error> {
        if self.pending.whole.is_whole() {
            let unit = mem::replace(&mut self.pending, Events::none(self.alloc));
            add(&mut self.units, unit)?;
        } else if !is_first {
            self.pending.body.join(self.alloc, event, source)?;
        }
        Ok(())
    }

    /// Takes the next event. False for an End that isn't the innermost open container's.
    fn take(&mut self, event: &Event<'_>, source: Option<&str>) -> Result<bool, AllocError> {
        let is_first = self.pending.whole.is_empty();
        let joined = self.pending.whole.join(self.alloc, event, source);
        let taken = match joined {
            Ok(()) => self.end_unit(event, source, is_first),
            Err(error) => Err(error),
        };
        match taken {
            Ok(()) => Ok(true),
            Err(Error::OutOfMemory) => Err(AllocError),
            Err(_error) => Ok(false),
        }
    }

    fn take_all(&mut self, script: &Script<'_>) -> Result<(), AllocError> {
        for (event, range) in &script.events {
            if !self.take(event, spelling(&script.source, *range))? {
                return Ok(());
            }
        }
        Ok(())
    }

    /// The event after the unit at this place.
    fn behind(&self, place: usize) -> Option<&OwnedEvent> {
        match self.units.get(place.saturating_add(1)) {
            Some(unit) => first_of(&unit.whole),
            None => first_of(&self.pending.whole),
        }
    }

    /// Tries the unit at this place.
    fn try_whole<'x>(
        &'x self,
        place: usize,
        unit: &'x Events,
        front: &mut Front,
        report: &mut Report,
    ) -> Result<(), AllocError> {
        let (alloc, options, flags) = (self.alloc, &self.options, self.flags);
        let pending = &unit.whole;
        let found = findings_of(alloc, &CoreReader, options, flags, pending)?;
        let known = KnownUnit {
            pending,
            found: &found,
            next: self.behind(place),
        };
        let unit = Unit {
            alloc,
            options,
            flags,
            known,
        };
        try_unit(&unit, front, report)
    }

    /// Tries the body of a unit, after its Start.
    fn try_inside<'x>(
        &'x self,
        unit: &'x Events,
        front: &Front,
        report: &mut Report,
    ) -> Result<(), AllocError> {
        let (start, end) = match unit.whole.events() {
            [first, .., last] => (&first.event, &last.event),
            _ => return Ok(()),
        };
        let (alloc, options, flags) = (self.alloc, &self.options, self.flags);
        let pending = &unit.body;
        let found = findings_of(alloc, &CoreReader, options, flags, pending)?;
        let known = KnownUnit {
            pending,
            found: &found,
            next: Some(end),
        };
        let body = Unit {
            alloc,
            options,
            flags,
            known,
        };
        try_body(&body, start, front, report)
    }

    /// Tries its units.
    fn try_units(&self, report: &mut Report) -> Result<(), AllocError> {
        let mut front = Front::new();
        for (place, unit) in self.units.iter().enumerate() {
            report.begin_unit();
            self.try_inside(unit, &front, report)?;
            self.try_whole(place, unit, &mut front, report)?;
        }
        Ok(())
    }

    /// Takes the events of a script, and tries its units.
    fn run(&mut self, script: &Script<'_>, report: &mut Report) -> Result<(), AllocError> {
        self.take_all(script)?;
        self.try_units(report)
    }
}

/// Tries the units of a script.
fn try_script(alloc: Global, script: &Script<'_>, report: &mut Report) -> Result<(), AllocError> {
    let mut row = Row {
        alloc,
        options: script.options(),
        flags: script.flags,
        units: Vec::new(alloc),
        pending: Events::none(alloc),
    };
    row.run(script, report)
}

/// What is tried with the stored rows beside their answers, and what that comes to.
#[derive(Drop)]
pub struct RowTrials {
    again: Again,
    report: Report,
}

impl RowTrials {
    /// No row yet.
    pub fn new(alloc: Global) -> RowTrials {
        RowTrials {
            again: Again::NONE,
            report: Report::new(alloc),
        }
    }

    /// Runs a script again, and tries its units. The answer gets a line for each run that isn't as it should be, and
    /// the report one for each writing that differs. A row whose units memory can't hold is passed over, and counted.
    ///
    /// # Errors
    ///
    /// There is no memory for the runs.
    pub fn run(
        &mut self,
        alloc: Global,
        script: &Script<'static>,
        answer: &mut String,
    ) -> Result<(), AllocError> {
        self.again.run(alloc, script, answer)?;
        self.report.begin_row();
        let tried = try_script(alloc, script, &mut self.report);
        self.report.end_row(tried.is_ok());
        Ok(())
    }

    /// Writes how many runs there were, and the report.
    ///
    /// # Errors
    ///
    /// The error of the output.
    pub fn write<W: Write>(&self, output: &mut W) -> io::Result<()> {
        self.again.write(output)?;
        self.report.write(output)
    }
}
