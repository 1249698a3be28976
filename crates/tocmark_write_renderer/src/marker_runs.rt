//! How long a text's last run of markers is, and the run round a place, without a walk over the
//! text.

ghost use Rattle.std.specs.Prelude.{◌≡◌, ◌<◌, ℕ, ◌==◌, List, IfOk, OnErr, OnOk, drop, reverse, take};
ghost use Rattle.std.specs.List.{prefix_len};
ghost use Rattle.tocmark_spelling.specs.Runs.{is_marker, last_run, run_around};
ghost use Rattle.tocmark_write_renderer.specs.RunsOf.{AreInOrder, AreNoted, AreWhole, covers, cut_at, ends_at, is_reached, length_round, with_marker};

use std::alloc::{AllocError, Global};

/// A longest run of one marker in a text.
#[derive(Clone, Copy)]
struct MarkerRun {
    marker: u8,
    /// Where it starts, in bytes.
    start: usize,
    /// How many markers it has.
    length: usize,
}

/// The runs of `*` and of `_` in the front of a text.
#[derive(Drop)]
pub struct MarkerRuns {
    /// In the order of the text.
    runs: Vec<MarkerRun>,
    /// How far the text was read, in bytes.
    read: usize,
}

impl MarkerRuns {
    /// No byte of any text is read yet.
    pub fn new(alloc: Global) -> MarkerRuns
        ensures { (text : List ℕ) → AreNoted result text }
    {
        MarkerRuns {
            runs: Vec::new(alloc),
            read: 0,
        }
    }

    /// Reads what the text has grown by. If memory runs out, what is noted by then stays.
    pub fn note(&mut self, text: &str) -> Result<(), AllocError>
        requires { AreNoted self.old text.now }
        ensures noted { AreNoted self.new text.now }
        ensures whole { OnOk result (AreWhole self.new text.now) }
    {
        let bytes = text.as_bytes();
        while self.read < bytes.len() {
            let byte = bytes[self.read];
            if is_marker(byte) {
                put_marker(&mut self.runs, byte, self.read)?;
            }
            self.read += 1;
        }
        Ok(())
    }

    /// How long the text's last run of `*` or of `_` is, in bytes.
    pub fn last(&self) -> usize
        ensures { (text : List ℕ) → AreWhole self.now text → result ≡ last_run text }
    {
        match self.runs.last() {
            Some(run) => run.length,
            None => 0,
        }
    }

    /// How long the run of a byte is round a place of the text, in bytes. An `Err` says that it is
    /// as long as no text can be.
    ///
    /// Only for a byte that is neither `*` nor `_` this goes over the run.
    pub fn around(&self, text: &str, place: usize, byte: u8) -> Result<usize, AllocError>
        requires { AreWhole self.now text.now }
        ensures { IfOk result (λ run. run ≡ run_around byte place text.now) }
    {
        if is_marker(byte) {
            Ok(length_round(&self.runs, place.min(text.len()), byte))
        } else {
            other_run(text.as_bytes(), place, byte)
        }
    }

    /// Forgets what is after a length, to which the text is cut. It takes no memory.
    pub fn truncate(&mut self, length: usize)
        ensures { (text : List ℕ) → AreNoted self.old text → AreNoted self.new (take length text) }
    {
        if length < self.read {
            cut(&mut self.runs, length);
            self.read = length;
        }
    }
}

fn is_marker(byte: u8) -> bool
    ensures { result ≡ is_marker byte }
{
    byte == b'*' || byte == b'_'
}

/// Whether a run of this marker ends at a place.
fn ends_at(run: MarkerRun, marker: u8, place: usize) -> bool
    ensures { result ≡ ends_at marker place run }
{
    run.marker == marker && run.start <= place && place - run.start == run.length
}

/// Whether a run starts before a place, or there with this marker.
fn is_reached(run: MarkerRun, marker: u8, place: usize) -> bool
    ensures { result ≡ is_reached marker place run }
{
    run.start < place || run.start == place && run.marker == marker
}

/// Whether a run of this marker is round a place, or ends or starts there.
fn covers(run: MarkerRun, marker: u8, place: usize) -> bool
    ensures { result ≡ covers marker place run }
{
    run.marker == marker && run.start <= place && place - run.start <= run.length
}

/// One more marker, after all that was read. If memory runs out, nothing is changed.
fn put_marker(runs: &mut Vec<MarkerRun>, marker: u8, place: usize) -> Result<(), AllocError>
    requires { place < usize.MAX }
    ensures more { OnOk result (reverse runs.new.items
        ≡ with_marker marker place (reverse runs.old.items)) }
    ensures stays { OnErr result (runs.new.items ≡ runs.old.items) }
{
    let count = runs.len();
    if count > 0 && ends_at(runs[count - 1], marker, place) {
        runs[count - 1].length += 1;
        return Ok(());
    }
    runs.push(MarkerRun {
        marker,
        start: place,
        length: 1,
    })?;
    Ok(())
}

/// Leaves what is before a place.
fn cut(runs: &mut Vec<MarkerRun>, place: usize)
    ensures { reverse runs.new.items ≡ cut_at place (reverse runs.old.items) }
{
    let mut count = runs.len();
    while count > 0 {
        let run = runs[count - 1];
        if run.start < place {
            runs.truncate(count);
            runs[count - 1].length = run.length.min(place - run.start);
            return;
        }
        count -= 1;
    }
    runs.clear();
}

/// How long the run of a marker is round a place, which is none after the text's end.
fn length_round(runs: &[MarkerRun], place: usize, marker: u8) -> usize
    requires { (limit : ℕ) × AreInOrder limit (reverse runs.now) }
    ensures { result ≡ length_round marker place (reverse runs.now) }
{
    let count = runs.partition_point(
        |run: &MarkerRun| -> bool
            ensures { result ≡ is_reached marker place run.now }
        { is_reached(*run, marker, place) },
    );
    if count > 0 && covers(runs[count - 1], marker, place) {
        runs[count - 1].length
    } else {
        0
    }
}

/// How often a byte is at the front of a text.
fn front_run(bytes: &[u8], byte: u8) -> usize
    ensures { result ≡ prefix_len (λ b. b == byte) bytes.now }
{
    bytes.iter().take_while(|b| **b == byte).count()
}

/// How often it is at the end.
fn back_run(bytes: &[u8], byte: u8) -> usize
    ensures { result ≡ prefix_len (λ b. b == byte) (reverse bytes.now) }
{
    bytes.iter().rev().take_while(|b| **b == byte).count()
}

fn before(bytes: &[u8], place: usize) -> &[u8]
    ensures { result.now ≡ take place bytes.now }
{
    if place < bytes.len() {
        &bytes[..place]
    } else {
        bytes
    }
}

fn behind(bytes: &[u8], place: usize) -> &[u8]
    ensures { result.now ≡ drop place bytes.now }
{
    if place < bytes.len() {
        &bytes[place..]
    } else {
        &[]
    }
}

/// How long the run of any byte is round a place of a text. An `Err` says that it is as long as no
/// text can be.
fn other_run(bytes: &[u8], place: usize, byte: u8) -> Result<usize, AllocError>
    ensures { IfOk result (λ run. run ≡ run_around byte place bytes.now) }
{
    let left = back_run(before(bytes, place), byte);
    let right = front_run(behind(bytes, place), byte);
    let run = left.checked_add(right).ok_or(AllocError)?;
    Ok(run)
}
