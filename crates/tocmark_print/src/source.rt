//! The source of a document: its lines, and where a place is on its line. All places are in bytes.

ghost use Rattle.std.specs.Prelude.{◌≡◌, IfOk};

use crate::line_starts::LineStarts;
use crate::spans::{Span, spans_of};
use std::alloc::{AllocError, Global};

/// A text, and where its lines begin.
#[derive(Drop)]
pub(crate) struct Source<'s> {
    pub(crate) text: &'s str,
    lines: LineStarts,
    /// The lines that other programs read as one, in their order.
    spans: Vec<Span>,
}

/// Whether a byte is a blank or a tab.
pub(crate) fn is_blank(byte: u8) -> bool {
    byte == b' ' || byte == b'\t'
}

/// A text without blanks and tabs at its end.
pub(crate) fn without_end_blanks(text: &str) -> &str {
    text.trim_end_matches(&[' ', '\t'])
}

/// A text without blanks and tabs at its front and its end.
pub(crate) fn without_blanks(text: &str) -> &str {
    without_end_blanks(text.trim_start_matches(&[' ', '\t']))
}

impl<'s> Source<'s> {
    /// A text whose lines end with line feeds.
    pub(crate) fn new(alloc: Global, text: &'s str) -> Result<Source<'s>, AllocError>
        ensures { IfOk result (λ source. source.text.now ≡ text.now) }
    {
        let lines = LineStarts::of(alloc, text)?;
        let spans = spans_of(alloc, text, &lines)?;
        Ok(Source { text, lines, spans })
    }

    /// The first lines that other programs read as one, of those that end after a place and don't begin before another one.
    pub(crate) fn span_behind(&self, place: usize, least: usize) -> Option<Span> {
        let number = self
            .spans
            .partition_point(|span| span.to <= place || span.from < least);
        self.spans.get(number).copied()
    }

    /// The text between two places; empty if there is none.
    pub(crate) fn slice(&self, from: usize, to: usize) -> &'s str {
        self.text.get(from..to).unwrap_or("")
    }

    /// The bytes between two places, up to the end of the text; none if there are none.
    pub(crate) fn bytes(&self, from: usize, to: usize) -> &'s [u8] {
        let bytes = self.text.as_bytes();
        bytes.get(from..to.min(bytes.len())).unwrap_or(&[])
    }

    /// The byte at a place; a line feed at the end and past it.
    pub(crate) fn byte(&self, at: usize) -> u8 {
        self.text.as_bytes().get(at).copied().unwrap_or(b'\n')
    }

    /// The number of the line that a place is on, counted from 0.
    pub(crate) fn line_of(&self, at: usize) -> usize {
        self.lines.line_of(at.min(self.text.len()))
    }

    /// The line feed before a line by its number; the end of the text, if there is no such line.
    fn end_before(&self, number: usize) -> usize {
        match self.lines.start(number) {
            Some(start) => start.saturating_sub(1),
            None => self.text.len(),
        }
    }

    /// A line by its number, counted from 0, without its line feed; empty if there is none.
    pub(crate) fn line(&self, number: usize) -> &'s str {
        match self.lines.start(number) {
            Some(start) => self.slice(start, self.end_before(number.saturating_add(1))),
            None => "",
        }
    }

    /// Where a line begins by its number, counted from 0; the end of the text, if there is no such line.
    pub(crate) fn start_of(&self, number: usize) -> usize {
        self.lines.start(number).unwrap_or(self.text.len())
    }

    /// Where the line of a place begins.
    pub(crate) fn line_start(&self, at: usize) -> usize {
        self.lines.start(self.line_of(at)).unwrap_or(0)
    }

    /// The line feed that ends the line of a place; the end of the text, if there is none.
    pub(crate) fn line_end(&self, at: usize) -> usize {
        self.end_before(self.line_of(at).saturating_add(1))
    }

    /// The first place from here on without a blank or a tab.
    pub(crate) fn past_blanks(&self, at: usize) -> usize {
        let rest = self.text.as_bytes().get(at..).unwrap_or(&[]);
        let blanks = rest.iter().take_while(|byte| is_blank(**byte)).count();
        at.saturating_add(blanks)
    }

    /// The column of a place on its line, where another one before it has this column; a tab ends at the next multiple of
    /// four.
    pub(crate) fn column_at(&self, column: usize, before: usize, at: usize) -> usize {
        let mut column = column;
        for character in self.slice(before, at).chars() {
            let width = if character == '\t' {
                4usize.saturating_sub(column % 4)
            } else {
                1
            };
            column = column.saturating_add(width);
        }
        column
    }

    /// Whether a line without anything but blanks and signs of quotes is between two places.
    pub(crate) fn has_blank_line(&self, from: usize, to: usize) -> bool {
        let first = self.line_of(from).saturating_add(1);
        let last = self.line_of(to);
        for line in first..last {
            let text = self.line(line);
            if text.trim_start_matches(&[' ', '\t', '>']).is_empty() {
                return true;
            }
        }
        false
    }
}
