//! What ends the lines of a source.

use std::alloc::{AllocError, Global};

/// What ends a line.
#[derive(Clone, Copy, Debug, PartialEq, Eq)]
pub enum LineEnd {
    Feed,
    Return,
    ReturnAndFeed,
}

/// Whether a byte belongs to a line's end.
pub(crate) fn is_end(byte: u8) -> bool {
    byte == b'\n' || byte == b'\r'
}

impl LineEnd {
    pub fn as_str(self) -> &'static str {
        match self {
            LineEnd::Feed => "\n",
            LineEnd::Return => "\r",
            LineEnd::ReturnAndFeed => "\r\n",
        }
    }

    /// The line end that begins at a byte, if one does.
    pub(crate) fn at(bytes: &[u8], at: usize) -> Option<LineEnd> {
        match bytes.get(at).copied() {
            Some(b'\n') => Some(LineEnd::Feed),
            Some(b'\r') => {
                if bytes.get(at.saturating_add(1)).copied() == Some(b'\n') {
                    Some(LineEnd::ReturnAndFeed)
                } else {
                    Some(LineEnd::Return)
                }
            }
            _ => None,
        }
    }

    /// The line end just before a byte, if there is one.
    fn before(bytes: &[u8], at: usize) -> Option<LineEnd> {
        let last = at.checked_sub(1)?;
        if let Some(before) = last.checked_sub(1)
            && LineEnd::at(bytes, before) == Some(LineEnd::ReturnAndFeed)
        {
            return Some(LineEnd::ReturnAndFeed);
        }
        LineEnd::at(bytes, last)
    }

    /// The first line end of a source; a line feed if there is none.
    pub fn of(source: &str) -> LineEnd {
        let bytes = source.as_bytes();
        for at in 0..bytes.len() {
            if let Some(end) = LineEnd::at(bytes, at) {
                return end;
            }
        }
        LineEnd::Feed
    }

    /// The line end after some lines, or else the one before them, or else `common`.
    pub(crate) fn beside(bytes: &[u8], from: usize, to: usize, common: LineEnd) -> LineEnd {
        match LineEnd::at(bytes, to) {
            Some(end) => end,
            None => LineEnd::before(bytes, from).unwrap_or(common),
        }
    }

    /// A text with this in place of each line feed.
    pub(crate) fn ending(self, alloc: Global, text: &str) -> Result<String, AllocError> {
        match self {
            LineEnd::Feed => String::from_str(alloc, text),
            other => text.replace(alloc, "\n", other.as_str()),
        }
    }
}

/// How many lines end in a stretch.
pub(crate) fn ends_between(bytes: &[u8], from: usize, to: usize) -> usize {
    let mut count = 0usize;
    for at in from..to.min(bytes.len()) {
        if let Some(end) = LineEnd::at(bytes, at)
            && end != LineEnd::ReturnAndFeed
        {
            count = count.saturating_add(1);
        }
    }
    count
}
