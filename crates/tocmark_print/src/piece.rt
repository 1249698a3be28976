//! What a leaf's text is made of: stretches of text, and the breaks between them.

use crate::link::push_tail;
use std::alloc::{AllocError, Global};

/// A part of a leaf's text.
#[derive(Clone, Copy)]
pub(crate) enum Piece {
    /// A text, up to this byte, which may be broken at its blanks.
    Text(usize),
    /// A code span, a sign, the tail of a link or HTML, up to this byte, which isn't broken.
    Solid(usize),
    /// A line feed of such a piece. `is_deep` says of a break that the line after it could begin a block in the source,
    /// but that it is indented or lazy.
    Feed { is_deep: bool },
    /// A soft break.
    Soft { is_deep: bool },
    /// A hard break: two blanks, or else a backslash.
    Hard { is_deep: bool, is_blanks: bool },
}

/// Pieces with their text.
#[derive(Drop)]
pub(crate) struct Pieces {
    pub(crate) text: String,
    pub(crate) list: Vec<Piece>,
}

impl Pieces {
    pub(crate) fn new(alloc: Global) -> Pieces {
        Pieces {
            text: String::new(alloc),
            list: Vec::new(alloc),
        }
    }

    /// Takes all pieces away, and keeps their room.
    pub(crate) fn clear(&mut self) {
        self.text.truncate(0);
        self.list.truncate(0);
    }

    pub(crate) fn push(&mut self, piece: Piece) -> Result<(), AllocError> {
        self.list.push(piece)?;
        Ok(())
    }

    /// Adds a text that may be broken at its blanks.
    pub(crate) fn add_text(&mut self, text: &str) -> Result<(), AllocError> {
        self.text.push_str(text)?;
        let end = self.text.len();
        self.push(Piece::Text(end))
    }

    /// Adds a text that isn't broken; nothing if it is empty.
    pub(crate) fn add_solid(&mut self, text: &str) -> Result<(), AllocError> {
        if text.is_empty() {
            return Ok(());
        }
        self.text.push_str(text)?;
        let end = self.text.len();
        self.push(Piece::Solid(end))
    }

    /// Adds the tail of a link on one line.
    pub(crate) fn add_tail(&mut self, tail: &str) -> Result<(), AllocError> {
        push_tail(&mut self.text, tail)?;
        let end = self.text.len();
        self.push(Piece::Solid(end))
    }

    /// Adds the pieces of others after these.
    pub(crate) fn append(&mut self, other: &Pieces) -> Result<(), AllocError> {
        let base = self.text.len();
        self.text.push_str(other.text.as_str())?;
        for piece in &other.list {
            let piece = match piece {
                Piece::Text(end) => Piece::Text(end.saturating_add(base)),
                Piece::Solid(end) => Piece::Solid(end.saturating_add(base)),
                _ => *piece,
            };
            self.push(piece)?;
        }
        Ok(())
    }

    /// The text with a line feed for each break.
    pub(crate) fn lines(&self, alloc: Global) -> Result<String, AllocError> {
        let mut text = String::new(alloc);
        let mut start = 0usize;
        for piece in &self.list {
            match piece {
                Piece::Text(end) | Piece::Solid(end) => {
                    text.push_str(self.text.as_str().get(start..*end).unwrap_or(""))?;
                    start = *end;
                }
                _ => text.push('\n')?,
            }
        }
        Ok(text)
    }

    /// The text of the last piece; empty if that is a break, or if there is none.
    pub(crate) fn last_text(&self) -> &str {
        let count = self.list.len();
        let end = match self.list.last() {
            Some(Piece::Text(end) | Piece::Solid(end)) => *end,
            _ => return "",
        };
        let before = self.list.get(..count.saturating_sub(1)).unwrap_or(&[]);
        let mut start = 0usize;
        for piece in before.iter().rev() {
            if let Piece::Text(at) | Piece::Solid(at) = piece {
                start = *at;
                break;
            }
        }
        self.text.as_str().get(start..end).unwrap_or("")
    }
}

/// Whether a text ends with a backslash that escapes what is after it.
pub(crate) fn ends_with_backslash(text: &str) -> bool {
    let signs = text.len().saturating_sub(text.trim_end_matches('\\').len());
    signs % 2 == 1
}

/// Takes away the blanks at the end of a text, of at most so many bytes.
pub(crate) fn cut_blanks(text: &mut String, most: usize) {
    for _ in 0..most {
        if !text.as_str().ends_with(' ') {
            break;
        }
        text.pop();
    }
}

/// Four blanks, which keep a line from beginning a block.
pub(crate) const INDENT: &str = "    ";

/// Some blanks, at most four.
pub(crate) fn blanks(count: usize) -> &'static str {
    INDENT.get(..count).unwrap_or(INDENT)
}

/// Adds a character so many times.
pub(crate) fn push_repeated(
    text: &mut String,
    character: char,
    count: usize,
) -> Result<(), AllocError> {
    for _ in 0..count {
        text.push(character)?;
    }
    Ok(())
}
