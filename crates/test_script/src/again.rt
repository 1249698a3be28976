//! Runs of one script again: with a clone of the state after each event, and with a writer or a reader that fails.

use crate::runs::{Refusals, RunAnswer, refusals_of, run_with};
use crate::script::{Call, Script};
use crate::tally::Tally;
use std::alloc::{AllocError, Global};
use std::io::{self, Write};

/// A script with more events than these isn't run again.
const MOST_EVENTS: usize = 300;

/// What the runs of scripts again were.
#[derive(Clone, Copy)]
pub struct Again {
    /// How many scripts were run again.
    scripts: usize,
    clones: Tally,
    writers: Tally,
    readers: Tally,
}

/// Puts the calls of a call after others: each of its events by itself, or the call itself where it takes none, and a
/// clone after each.
fn push_cloned(calls: &mut Vec<Call>, call: Call) -> Result<(), AllocError> {
    let (start, end) = match call {
        Call::Process { start, end } => (start, end),
        Call::Finish | Call::Clone => (0, 0),
    };
    if start == end {
        calls.push(call)?;
        calls.push(Call::Clone)?;
    }
    for start in start..end {
        let end = start.saturating_add(1);
        calls.push(Call::Process { start, end })?;
        calls.push(Call::Clone)?;
    }
    Ok(())
}

/// The answer where the state is cloned after each event and each finish, and the clone goes on.
fn cloned(alloc: Global, script: &Script<'static>) -> Result<String, AllocError> {
    let mut calls = Vec::new(alloc);
    for call in &script.calls {
        push_cloned(&mut calls, *call)?;
    }
    Ok(run_with(alloc, script, &calls, refusals_of(script))?.answer)
}

/// The answer where this text and this reading are refused.
fn answer_with(
    alloc: Global,
    script: &Script<'static>,
    refusals: Refusals,
) -> Result<String, AllocError> {
    Ok(run_with(alloc, script, &script.calls, refusals)?.answer)
}

/// How many lines a text has.
fn line_count(text: &str) -> usize {
    text.as_bytes()
        .iter()
        .filter(|byte| **byte == b'\n')
        .count()
}

/// How many first texts of a run an answer has, if after them it has this last line alone.
fn texts_before(answer: &str, last: &str, whole: &RunAnswer) -> Option<usize> {
    let texts = answer.strip_suffix(last)?;
    if whole.answer.as_str().starts_with(texts) {
        Some(line_count(texts))
    } else {
        None
    }
}

/// Writes a line that says which run isn't as it should be.
fn complain(
    answer: &mut String,
    is_right: bool,
    run: &str,
    number: usize,
) -> Result<(), AllocError> {
    if is_right {
        Ok(())
    } else {
        writeln!(answer, "Again {run} {number}: different")
    }
}

impl Again {
    /// No run yet.
    pub const NONE: Again = Again {
        scripts: 0,
        clones: Tally::NONE,
        writers: Tally::NONE,
        readers: Tally::NONE,
    };

    /// With clones the answer is that of the whole run.
    fn run_cloned(
        &mut self,
        alloc: Global,
        script: &Script<'static>,
        whole: &RunAnswer,
        answer: &mut String,
    ) -> Result<(), AllocError> {
        let is_right = cloned(alloc, script)? == whole.answer;
        self.clones.count(is_right);
        complain(answer, is_right, "clones", 0)
    }

    /// A writer that refuses a text has taken just those before it.
    fn run_writers(
        &mut self,
        alloc: Global,
        script: &Script<'static>,
        whole: &RunAnswer,
        answer: &mut String,
    ) -> Result<(), AllocError> {
        for taken in 0..whole.texts {
            let number = taken.saturating_add(1);
            let refusals = Refusals {
                text: Some(number),
                reading: script.refused_reading,
            };
            let refused = answer_with(alloc, script, refusals)?;
            let texts = texts_before(refused.as_str(), "Err FormatFailed\n", whole);
            let is_right = texts == Some(taken);
            self.writers.count(is_right);
            complain(answer, is_right, "writer", number)?;
        }
        Ok(())
    }

    /// A reader that finds no memory ends the run after some first texts.
    fn run_readers(
        &mut self,
        alloc: Global,
        script: &Script<'static>,
        whole: &RunAnswer,
        answer: &mut String,
    ) -> Result<(), AllocError> {
        for earlier in 0..whole.readings {
            let number = earlier.saturating_add(1);
            let refusals = Refusals {
                text: script.refused_text,
                reading: Some(number),
            };
            let refused = answer_with(alloc, script, refusals)?;
            let texts = texts_before(refused.as_str(), "Err OutOfMemory\n", whole);
            let is_right = texts.is_some();
            self.readers.count(is_right);
            complain(answer, is_right, "reader", number)?;
        }
        Ok(())
    }

    /// Runs a script again, unless it asks questions or has too many events. A line after its answer says which run
    /// isn't as it should be.
    pub fn run(
        &mut self,
        alloc: Global,
        script: &Script<'static>,
        answer: &mut String,
    ) -> Result<(), AllocError> {
        if !script.questions.is_empty() || script.events.len() > MOST_EVENTS {
            return Ok(());
        }
        let whole = run_with(alloc, script, &script.calls, refusals_of(script))?;
        self.scripts = self.scripts.saturating_add(1);
        self.run_cloned(alloc, script, &whole, answer)?;
        self.run_writers(alloc, script, &whole, answer)?;
        self.run_readers(alloc, script, &whole, answer)
    }

    /// Writes how many runs there were.
    pub fn write<W: Write>(&self, output: &mut W) -> io::Result<()> {
        let scripts = self.scripts;
        let (clones, writers, readers) = (self.clones, self.writers, self.readers);
        writeln!(
            output,
            "{scripts} scripts of at most {MOST_EVENTS} events run again"
        )?;
        write_tally(
            output,
            "with a clone of the state behind each event",
            clones,
        )?;
        write_tally(output, "with a writer that refuses a text", writers)?;
        write_tally(
            output,
            "with a reader without memory for a reading",
            readers,
        )
    }
}

/// Writes how many runs of one sort there were.
fn write_tally<W: Write>(output: &mut W, sort: &str, tally: Tally) -> io::Result<()> {
    let Tally { same, different } = tally;
    writeln!(
        output,
        "{sort}: {same} as they should be, {different} different"
    )
}
