//! Runs of one script in other calls, between which the state is cloned.

use crate::runs::run;
use crate::script::{Call, Script};
use crate::tally::Tally;
use std::alloc::{AllocError, Global};

/// The answer where the events are cut in two, and a clone of the state takes those after the cut.
fn in_two(alloc: Global, script: &Script<'static>, place: usize) -> Result<String, AllocError> {
    let end = script.events.len();
    let front = Call::Process {
        start: 0,
        end: place,
    };
    let back = Call::Process { start: place, end };
    run(
        alloc,
        script,
        &[front, Call::Clone, back, Call::Finish],
        false,
    )
}

/// The answer where each call but the last takes so many events, and a clone of the state goes on after it.
fn in_parts(alloc: Global, script: &Script<'static>, size: usize) -> Result<String, AllocError> {
    let events = script.events.len();
    let size = size.max(1);
    let mut calls = Vec::new(alloc);
    for start in 0..events {
        if start % size == 0 {
            let end = start.saturating_add(size).min(events);
            calls.push(Call::Process { start, end })?;
            calls.push(Call::Clone)?;
        }
    }
    calls.push(Call::Finish)?;
    run(alloc, script, &calls, false)
}

/// Writes how many other cuts of the events into calls have the answer of one call over all of them:
/// the cuts in two at each place, and those into parts of each size.
pub fn write_cuts(
    alloc: Global,
    answer: &mut String,
    script: &Script<'static>,
) -> Result<(), AllocError> {
    let events = script.events.len();
    let whole = in_parts(alloc, script, events)?;
    let mut cuts = Tally::NONE;
    for place in 0..events.saturating_add(1) {
        cuts.count(in_two(alloc, script, place)? == whole);
    }
    for size in 1..events {
        cuts.count(in_parts(alloc, script, size)? == whole);
    }
    let Tally { same, different } = cuts;
    writeln!(answer, "Cuts same={same} different={different}")
}
