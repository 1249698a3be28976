//! The lines of a leaf.

use crate::hazard::is_hazard;
use crate::piece::{INDENT, Piece, Pieces, cut_blanks, ends_with_backslash};
use std::alloc::{AllocError, Global};

/// The lines of a leaf.
#[derive(Drop)]
pub(crate) struct Lines {
    text: String,
    /// Where each line ends in the text; each begins where the one before it ends.
    ends: Vec<usize>,
    /// The line that isn't ended.
    line: String,
}

/// A line before a break, and what it ends with there.
pub(crate) fn line_end(line: &str, piece: Piece) -> (&str, &'static str) {
    match piece {
        Piece::Hard {
            is_blanks: false,
            ..
        } => (line, "\\"),
        Piece::Hard { .. } => (line.trim_end_matches(' '), "  "),
        Piece::Soft { .. } => {
            let text = line.trim_end_matches(' ');
            let is_cut = text.len() < line.len();
            let tail = if is_cut && ends_with_backslash(text) {
                " "
            } else {
                ""
            };
            (text, tail)
        }
        _ => (line, ""),
    }
}

impl Lines {
    pub(crate) fn new(alloc: Global) -> Lines {
        Lines {
            text: String::new(alloc),
            ends: Vec::new(alloc),
            line: String::new(alloc),
        }
    }

    pub(crate) fn len(&self) -> usize {
        self.ends.len()
    }

    /// A line; empty if there is none.
    pub(crate) fn line(&self, at: usize) -> &str {
        let start = match at.checked_sub(1) {
            Some(before) => self.ends.get(before).copied().unwrap_or(0),
            None => 0,
        };
        let end = self.ends.get(at).copied().unwrap_or(start);
        self.text.as_str().get(start..end).unwrap_or("")
    }

    pub(crate) fn last(&self) -> &str {
        self.line(self.len().saturating_sub(1))
    }

    /// Adds a blank and a text to the last line.
    pub(crate) fn add_to_last(&mut self, text: &str) -> Result<(), AllocError> {
        self.text.push(' ')?;
        self.text.push_str(text)?;
        let length = self.text.len();
        if let Some(end) = self.ends.last_mut() {
            *end = length;
        }
        Ok(())
    }

    /// The line that isn't ended.
    pub(crate) fn current(&self) -> &str {
        self.line.as_str()
    }

    /// Adds to the line that isn't ended.
    pub(crate) fn push(&mut self, text: &str) -> Result<(), AllocError> {
        self.line.push_str(text)
    }

    /// Ends the line. It gets four blanks in front if it would begin a block without them.
    pub(crate) fn end_line(&mut self, is_deep: bool) -> Result<(), AllocError> {
        if is_deep && is_hazard(self.line.as_str()) {
            self.text.push_str(INDENT)?;
        }
        self.text.push_str(self.line.as_str())?;
        self.line.truncate(0);
        let length = self.text.len();
        self.ends.push(length)?;
        Ok(())
    }

    /// Adds what a line ends with at a break.
    fn break_line(&mut self, piece: Piece) -> Result<(), AllocError> {
        let length = self.line.len();
        let (text, tail) = line_end(self.line.as_str(), piece);
        let is_cut = text.len() < length;
        if is_cut {
            cut_blanks(&mut self.line, length);
        }
        self.line.push_str(tail)
    }

    /// Joins the line and the next one by a blank.
    fn join_line(&mut self) -> Result<(), AllocError> {
        let length = self.line.len();
        cut_blanks(&mut self.line, length);
        self.line.push(' ')
    }

    /// Adds the lines of pieces, as `kept` has them.
    fn add_all(&mut self, pieces: &Pieces, joins: bool) -> Result<(), AllocError> {
        let mut from = 0usize;
        let mut is_deep = false;
        for piece in &pieces.list {
            let next_is_deep = match piece {
                Piece::Text(end) | Piece::Solid(end) => {
                    self.push(pieces.text.as_str().get(from..*end).unwrap_or(""))?;
                    from = *end;
                    continue;
                }
                Piece::Soft { .. } if joins => {
                    self.join_line()?;
                    continue;
                }
                Piece::Feed { is_deep } | Piece::Soft { is_deep } | Piece::Hard { is_deep, .. } =>
                    *is_deep,
            };
            self.break_line(*piece)?;
            self.end_line(is_deep)?;
            is_deep = next_is_deep;
        }
        self.end_line(is_deep)
    }

    /// The lines of pieces, broken where the source breaks them; or, if `joins` says so, only at hard breaks.
    pub(crate) fn kept(alloc: Global, pieces: &Pieces, joins: bool) -> Result<Lines, AllocError> {
        let mut lines = Lines::new(alloc);
        lines.add_all(pieces, joins)?;
        Ok(lines)
    }
}
