//! Where the lines of a text begin, in four bytes a line.

use std::alloc::{AllocError, Global};

/// How many bytes of a text share an entry of the index of its lines.
const STRETCH: usize = 64;

/// The last place of a text where a line may begin.
const LAST: usize = 0xFFFF_FFFF;

/// Where the lines of a text begin.
#[derive(Drop)]
pub(crate) struct LineStarts {
    starts: Vec<u32>,
    /// For each stretch of bytes the number of the line that its first byte is on.
    index: Vec<usize>,
}

impl LineStarts {
    /// The lines of a text.
    pub(crate) fn of(alloc: Global, text: &str) -> Result<LineStarts, AllocError> {
        let mut lines = LineStarts {
            starts: Vec::new(alloc),
            index: Vec::new(alloc),
        };
        lines.add_all(text)?;
        Ok(lines)
    }

    /// Adds the lines of a text.
    fn add_all(&mut self, text: &str) -> Result<(), AllocError> {
        self.index
            .reserve((text.len() / STRETCH).saturating_add(1))?;
        let mut at = 0usize;
        for line in text.split('\n') {
            self.index_to(at)?;
            self.push(at)?;
            at = at.saturating_add(line.len()).saturating_add(1);
        }
        self.index_to(at)
    }

    /// Adds a line, after the others. After 4 GiB there is no room for one.
    fn push(&mut self, at: usize) -> Result<(), AllocError> {
        if at > LAST {
            return Err(AllocError);
        }
        self.starts.push(at as u32)?;
        Ok(())
    }

    /// Indexes the bytes before a place: they are on the last line, or are indexed already.
    fn index_to(&mut self, at: usize) -> Result<(), AllocError> {
        let line = self.starts.len().saturating_sub(1);
        let count = at.saturating_add(STRETCH - 1) / STRETCH;
        for _ in self.index.len()..count {
            self.index.push(line)?;
        }
        Ok(())
    }

    /// How many lines there are.
    pub(crate) fn len(&self) -> usize {
        self.starts.len()
    }

    /// Where a line begins by its number, counted from 0.
    pub(crate) fn start(&self, number: usize) -> Option<usize> {
        let start = self.starts.get(number).copied()?;
        Some(start as usize)
    }

    /// The number of the line that a place is on, counted from 0. The place is in the text, or just after it.
    pub(crate) fn line_of(&self, at: usize) -> usize {
        let mut line = self.index.get(at / STRETCH).copied().unwrap_or(0);
        for _ in 0..STRETCH {
            match self.start(line.saturating_add(1)) {
                Some(next) if next <= at => line = line.saturating_add(1),
                _ => break,
            }
        }
        line
    }
}
