//! Code spans.

ghost use Rattle.std.specs.Prelude.{◌≡◌, IfOk, OnOk, length};
ghost use Rattle.tocmark_read_scan.specs.Repeat.{iterated};
ghost use Rattle.tocmark_read_spans.specs.Tick.{ticks_view, padded, noted, run_from, last_ticks, next_run, tick_end, shown, has_ink, stripped, push_shown};

use std::alloc::{AllocError, Global};
use tocmark_read_scan::basic::{byte_at, bytes_between, set};
use tocmark_read_scan::class::{Class, run_end};

/// For each number of backticks the place after the first byte of the last run of so many before a
/// place; 0 where there is none, and no entry for more than the longest of these runs has.
#[derive(Drop)]
struct Ticks {
    last: Vec<usize>,
    place: usize,
}

/// Makes room for so many entries: further ones are 0.
#[tactic(auto, using(crate::proofs::Room::enough, crate::proofs::Room::filled_up))]
fn pad(last: &mut Vec<usize>, count: usize) -> Result<(), AllocError>
    ensures { OnOk result (last.new.items ≡ padded count last.old.items) }
{
    if last.len() < count {
        last.resize(count, 0)?;
    }
    Ok(())
}

impl Ticks {
    /// Takes note of the run between two places.
    #[tactic(auto, unfolding(crate::specs::Tick::noted))]
    fn note(&mut self, start: usize, end: usize) -> Result<(), AllocError>
        ensures { OnOk result (ticks_view self.new ≡ noted start end (ticks_view self.old)) }
    {
        let count = end.saturating_sub(start);
        pad(&mut self.last, count.saturating_add(1))?;
        set(&mut self.last, count, start.saturating_add(1));
        self.place = end;
        Ok(())
    }
}

/// Where the first run of backticks from a place on begins and ends.
#[tactic(auto, unfolding(crate::specs::Tick::run_from))]
fn run_from(bytes: &[u8], place: usize) -> Option<(usize, usize)>
    ensures { result ≡ run_from bytes.now place }
{
    let start = run_end(bytes, place, Class::Except(b'`'));
    let end = run_end(bytes, start, Class::Only(b'`'));
    if start == end {
        None
    } else {
        Some((start, end))
    }
}

/// For each number of backticks the place after the first byte of the last run of so many in a text; 0
/// or no entry where there is none.
#[tactic(auto, unfolding(crate::specs::Tick::last_ticks), using(tocmark_read_scan::proofs::Repeats::iterated_zero, crate::proofs::NotedRuns::runs_stop, crate::proofs::NotedRuns::runs_more))]
pub fn last_ticks(alloc: Global, bytes: &[u8]) -> Result<Vec<usize>, AllocError>
    ensures { IfOk result (λ v. v.items ≡ last_ticks bytes.now) }
{
    let mut ticks = Ticks {
        last: Vec::new(alloc),
        place: 0,
    };
    for _steps_left in (0..bytes.len()).rev() {
        match run_from(bytes, ticks.place) {
            None => return Ok(ticks.last),
            Some((start, end)) => ticks.note(start, end)?,
        }
    }
    Ok(ticks.last)
}

/// The place of the run of backticks after the one at a place, unless this one has so many or the
/// text ends.
#[tactic(auto, unfolding(crate::specs::Tick::next_run))]
fn next_run(bytes: &[u8], count: usize, place: usize) -> Option<usize>
    ensures { result ≡ next_run bytes.now count place }
{
    let end = run_end(bytes, place, Class::Only(b'`'));
    let found = end.saturating_sub(place) == count || end == place;
    if found {
        None
    } else {
        Some(run_end(bytes, end, Class::Except(b'`')))
    }
}

/// The place of the first run of so many backticks from one run on, or the end of the text.
#[tactic(auto, using(tocmark_read_scan::proofs::Repeats::iterated_zero, tocmark_read_scan::proofs::Repeats::iterated_stop, tocmark_read_scan::proofs::Repeats::iterated_more))]
fn first_run(bytes: &[u8], count: usize, from: usize) -> usize
    ensures { result ≡ iterated (next_run bytes.now count) (length bytes.now) from }
{
    let mut place = from;
    for _steps_left in (0..bytes.len()).rev() {
        match next_run(bytes, count, place) {
            None => return place,
            Some(next) => place = next,
        }
    }
    place
}

/// The place of the backticks that close a code span whose text begins at a place, after so many
/// backticks; `None` where none do. `last` is `last_ticks` of the text.
#[tactic(auto, unfolding(crate::specs::Tick::tick_end))]
pub fn tick_end(bytes: &[u8], from: usize, count: usize, last: &[usize]) -> Option<usize>
    ensures { result ≡ tick_end bytes.now from count last.now }
{
    if from < last.get(count).copied().unwrap_or(0) {
        Some(first_run(bytes, count, run_end(bytes, from, Class::Except(b'`'))))
    } else {
        None
    }
}

/// A byte of a code span as it is shown: a space for a line feed.
#[tactic(auto, unfolding(crate::specs::Tick::shown))]
fn shown(byte: u8) -> u8
    ensures { result ≡ shown byte }
{
    if byte == b'\n' { b' ' } else { byte }
}

fn has_ink(text: &[u8]) -> bool
    ensures { result ≡ has_ink text.now }
{
    text.iter().any(|byte| shown(*byte) != b' ')
}

/// The text of a code span without one space at each end, where both ends are spaces and not all is.
#[tactic(auto, unfolding(crate::specs::Tick::stripped))]
fn stripped(text: &[u8]) -> &[u8]
    ensures { result.now ≡ stripped text.now }
{
    let end = text.len().saturating_sub(1);
    let padded = shown(byte_at(text, 0)) == b' '
        && shown(byte_at(text, end)) == b' '
        && has_ink(text);
    if padded {
        bytes_between(text, 1, end)
    } else {
        text
    }
}

/// Writes bytes after others, as they are shown.
fn push_shown(out: &mut Vec<u8>, text: &[u8]) -> Result<(), AllocError>
    ensures { OnOk result (out.new.items ≡ push_shown out.old.items text.now) }
{
    for byte in text {
        out.push(shown(*byte))?;
    }
    Ok(())
}

/// Writes the text of the code span whose bytes are between its backticks after others.
pub fn push_code(out: &mut Vec<u8>, text: &[u8]) -> Result<(), AllocError>
    ensures { OnOk result (out.new.items ≡ push_shown out.old.items (stripped text.now)) }
{
    push_shown(out, stripped(text))
}
