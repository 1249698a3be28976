//! A text with the places where its lines begin, and ranges of it as JSON.

use std::alloc::{AllocError, Global};
use std::fmt;
use tocmark_lsp_text::positions::{Encoding, Position, place, starts, units_of};

/// How many bytes are between two marks. A position is found in the time of so many bytes, however long its line is.
const STRIDE: usize = 1024;

/// What is between two positions.
#[derive(Clone, Copy)]
pub struct Span {
    pub start: Position,
    pub stop: Position,
}

impl fmt::Display for Span {
    /// Writes it as JSON.
    fn fmt<W: fmt::Write>(&self, f: &mut fmt::Formatter<W>) -> fmt::Result {
        let (start, stop) = (self.start, self.stop);
        write!(f, "{{\"start\":{start},\"end\":{stop}}}")
    }
}

/// A text with the places where its lines begin.
#[derive(Drop)]
pub struct Lined<'t> {
    pub(crate) text: &'t str,
    encoding: Encoding,
    starts: Vec<usize>,
    /// How many units are before each stride.
    marks: Vec<usize>,
}

/// How many units of a text are before each stride.
fn marks_of(alloc: Global, encoding: Encoding, text: &str) -> Result<Vec<usize>, AllocError> {
    let mut marks = Vec::new(alloc);
    let mut count = 0usize;
    for stride in text.as_bytes().chunks(STRIDE) {
        marks.push(count)?;
        count = count.saturating_add(units_of(encoding, stride));
    }
    marks.push(count)?;
    Ok(marks)
}

impl<'t> Lined<'t> {
    pub fn new(alloc: Global, text: &'t str, encoding: Encoding) -> Result<Lined<'t>, AllocError> {
        Ok(Lined {
            text,
            encoding,
            starts: starts(alloc, text)?,
            marks: marks_of(alloc, encoding, text)?,
        })
    }

    /// The byte at a position.
    pub(crate) fn byte(&self, position: Position) -> usize {
        place(self.encoding, &self.starts, self.text, position)
    }

    /// How many units are before a byte.
    fn units_before(&self, at: usize) -> usize {
        let number = at / STRIDE;
        let mark = self.marks.get(number).copied().unwrap_or(0);
        let from = number.saturating_mul(STRIDE);
        let rest = self.text.as_bytes().get(from..at).unwrap_or(&[]);
        mark.saturating_add(units_of(self.encoding, rest))
    }

    /// The position of a byte.
    fn position(&self, at: usize) -> Position {
        let at = at.min(self.text.len());
        let line = self
            .starts
            .partition_point(|start| *start <= at)
            .saturating_sub(1);
        let start = self.starts.get(line).copied().unwrap_or(0);
        let before = self.units_before(start);
        Position {
            line,
            character: self.units_before(at).saturating_sub(before),
        }
    }

    /// The range of some bytes.
    pub fn span(&self, (from, to): (usize, usize)) -> Span {
        Span {
            start: self.position(from),
            stop: self.position(to),
        }
    }

    /// The byte at which a line begins.
    pub(crate) fn line_start(&self, line: usize) -> usize {
        self.starts.get(line).copied().unwrap_or(self.text.len())
    }

    /// Where a line ends, before what ends it.
    pub fn line_end(&self, line: usize) -> Position {
        let next = self.starts.get(line.saturating_add(1)).copied();
        let start = self.starts.get(line).copied().unwrap_or(self.text.len());
        let (_, end) = self.inked((start, next.unwrap_or(self.text.len())));
        self.position(end)
    }

    /// Bytes without white space at their end.
    pub(crate) fn inked(&self, (from, to): (usize, usize)) -> (usize, usize) {
        let text = self.text.get(from..to).unwrap_or("");
        (from, from.saturating_add(text.trim_end().len()))
    }
}

/// Whether a byte is among these, or right after them.
pub(crate) fn holds((from, to): (usize, usize), at: usize) -> bool {
    from <= at && at <= to
}
