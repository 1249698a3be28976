//! Runs of a script.

use crate::errors::error_name;
use crate::event_line::{Events, RangedEvent, RangedEvents};
use crate::readers::{CountedReader, ScriptReader};
use crate::script::{Call, Script};
use crate::strings::Quoted;
use std::alloc::{AllocError, Global};
use std::fmt;
use tocmark::{Error, Progress, State};

/// The reader of one run.
type RunReader<'r> = CountedReader<'r, ScriptReader<'static>>;

/// Which text and which reading are refused, each counted from 1.
#[derive(Clone, Copy)]
pub struct Refusals {
    pub text: Option<usize>,
    pub reading: Option<usize>,
}

/// What a run came to.
#[derive(Drop)]
pub struct RunAnswer {
    pub answer: String,
    /// How many texts the writer was handed, with the one that it refused.
    pub texts: usize,
    /// How many readings there were, without the one for which there was no memory.
    pub readings: usize,
}

/// Writes each text that it takes as a line of an answer, and refuses one.
#[derive(Drop)]
struct Tape {
    answer: String,
    /// How many texts came.
    texts: usize,
    /// The number of the text that is refused, counted from 1.
    refused_text: Option<usize>,
    /// Whether memory ran out for the answer.
    is_full: bool,
}

impl fmt::Write for Tape {
    fn write_str(&mut self, s: &str) -> fmt::Result {
        self.texts = self.texts.saturating_add(1);
        if self.refused_text == Some(self.texts) {
            return Err(fmt::Error);
        }
        let text = Quoted(s);
        if writeln!(self.answer, "{text}").is_err() {
            self.is_full = true;
            return Err(fmt::Error);
        }
        Ok(())
    }
}

fn call_name(call: Call) -> &'static str {
    match call {
        Call::Process { .. } => "process",
        Call::Finish => "finish",
        Call::Clone => "clone",
    }
}

/// Whether so many events may wait: of those that waited and those that came at least the last one.
fn may_wait(waiting: usize, waited: usize, came: usize) -> bool {
    let all = waited.saturating_add(came);
    waiting <= all && waiting >= came.min(1)
}

/// Takes these events, with their ranges where there is a source.
fn take(
    state: &mut State<&RunReader<'_>>,
    events: &[RangedEvent<'static>],
    source: &Option<String>,
    tape: &mut Tape,
) -> Result<Progress, Error> {
    match source {
        Some(source) => {
            state.process_with_source_range(RangedEvents(events.iter()), source.as_str(), tape)
        }
        None => state.process(Events(events.iter()), tape),
    }
}

/// Takes these events. A line says how many wait where it can't be so many.
fn process(
    state: &mut State<&RunReader<'_>>,
    events: &[RangedEvent<'static>],
    source: &Option<String>,
    tape: &mut Tape,
) -> Result<Progress, Error> {
    let waited = state.pending_events();
    let progress = take(state, events, source, tape)?;
    let waiting = state.pending_events();
    if !may_wait(waiting, waited, events.len()) {
        writeln!(tape.answer, "{waiting} events wait")?;
    }
    Ok(progress)
}

/// Puts a value in another one's place, if there was memory for it.
fn replace<T: Drop>(place: &mut T, value: Result<T, AllocError>) -> Result<(), AllocError> {
    *place = value?;
    Ok(())
}

/// Puts a clone of the state in its place.
fn go_on_with_clone(state: &mut State<&RunReader<'_>>) -> Result<Progress, Error> {
    let clone = state.clone();
    match replace(state, clone) {
        Ok(()) => Ok(Progress::default()),
        Err(_) => Err(Error::OutOfMemory),
    }
}

/// Makes one call.
fn make(
    state: &mut State<&RunReader<'_>>,
    script: &Script<'static>,
    call: Call,
    tape: &mut Tape,
) -> Result<Progress, Error> {
    match call {
        Call::Process { start, end } => {
            let events = script.events.get(start..end).unwrap_or(&[]);
            process(state, events, &script.source, tape)
        }
        Call::Finish => state.finish(tape),
        Call::Clone => go_on_with_clone(state),
    }
}

fn write_outcome(answer: &mut String, outcome: &Result<Progress, Error>) -> Result<(), AllocError> {
    match outcome {
        Ok(progress) => {
            let consumed = progress.events_consumed;
            let written = progress.bytes_written;
            writeln!(answer, "Ok consumed={consumed} written={written}")
        }
        Err(error) => {
            let name = error_name(error);
            writeln!(answer, "Err {name}")
        }
    }
}

/// Makes all calls, and writes a line for each.
fn run_in_calls(
    state: &mut State<&RunReader<'_>>,
    script: &Script<'static>,
    calls: &[Call],
    tape: &mut Tape,
) -> Result<(), AllocError> {
    for call in calls {
        let outcome = make(state, script, *call, tape);
        let name = call_name(*call);
        write!(tape.answer, "{name} ")?;
        write_outcome(&mut tape.answer, &outcome)?;
    }
    Ok(())
}

/// Makes the calls up to the first error, and returns the sums of their counts.
fn run_whole(
    state: &mut State<&RunReader<'_>>,
    script: &Script<'static>,
    calls: &[Call],
    tape: &mut Tape,
) -> Result<Progress, Error> {
    let mut total = Progress::default();
    for call in calls {
        let progress = make(state, script, *call, tape)?;
        total.events_consumed = total
            .events_consumed
            .saturating_add(progress.events_consumed);
        total.bytes_written = total.bytes_written.saturating_add(progress.bytes_written);
    }
    Ok(total)
}

/// Makes the calls of a new state, and writes a line for each of them or one at the end.
fn answer_calls(
    state: &mut State<&RunReader<'_>>,
    script: &Script<'static>,
    calls: &[Call],
    shows_calls: bool,
    tape: &mut Tape,
) -> Result<(), AllocError> {
    if shows_calls {
        run_in_calls(state, script, calls, tape)
    } else {
        let outcome = run_whole(state, script, calls, tape);
        write_outcome(&mut tape.answer, &outcome)
    }
}

/// Makes a state and its calls, and writes their lines. Returns how many readings there were.
fn answer_script(
    alloc: Global,
    script: &Script<'static>,
    calls: &[Call],
    shows_calls: bool,
    refused_reading: Option<usize>,
    tape: &mut Tape,
) -> Result<usize, AllocError> {
    let reader = CountedReader::new(&script.reader, refused_reading);
    let answered = match State::new(alloc, &reader, script.flags, script.options()) {
        Ok(mut state) => answer_calls(&mut state, script, calls, shows_calls, tape),
        Err(error) => write_outcome(&mut tape.answer, &Err(error)),
    };
    match answered {
        Ok(()) => Ok(reader.readings()),
        Err(error) => Err(error),
    }
}

/// What these calls come to where a text and a reading are refused, with a line for each call or one at
/// the end. It fails if memory runs out for the answer.
fn run_refused(
    alloc: Global,
    script: &Script<'static>,
    calls: &[Call],
    shows_calls: bool,
    refusals: Refusals,
) -> Result<RunAnswer, AllocError> {
    let mut tape = Tape {
        answer: String::new(alloc),
        texts: 0,
        refused_text: refusals.text,
        is_full: false,
    };
    let readings = answer_script(
        alloc,
        script,
        calls,
        shows_calls,
        refusals.reading,
        &mut tape,
    )?;
    if tape.is_full {
        return Err(AllocError);
    }
    Ok(RunAnswer {
        answer: tape.answer,
        texts: tape.texts,
        readings,
    })
}

/// The text and the reading that a script refuses.
pub fn refusals_of(script: &Script<'_>) -> Refusals {
    Refusals {
        text: script.refused_text,
        reading: script.refused_reading,
    }
}

/// What these calls come to where a text and a reading are refused, with one line at the end. It fails
/// if memory runs out for the answer.
pub fn run_with(
    alloc: Global,
    script: &Script<'static>,
    calls: &[Call],
    refusals: Refusals,
) -> Result<RunAnswer, AllocError> {
    run_refused(alloc, script, calls, false, refusals)
}

/// What a script without questions is answered where these calls are made, with a line for each call or
/// one at the end. It fails if memory runs out for the answer.
pub fn run(
    alloc: Global,
    script: &Script<'static>,
    calls: &[Call],
    shows_calls: bool,
) -> Result<String, AllocError> {
    Ok(run_refused(alloc, script, calls, shows_calls, refusals_of(script))?.answer)
}
