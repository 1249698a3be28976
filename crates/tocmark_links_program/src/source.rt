//! What the files of pages have. A byte order mark at the front of a file is no text: it stays where it is.

use crate::fault::Fault;
use crate::plan::Edit;
use crate::site::Site;
use std::alloc::{AllocError, Global};

/// The byte order mark.
const ORDER_MARK: &str = "\u{feff}";

/// What a file has.
#[derive(Drop)]
pub struct Source {
    /// Whether it begins with a byte order mark.
    has_mark: bool,
    /// What follows the mark.
    pub text: String,
}

/// A text with a byte order mark in front of it.
fn marked(alloc: Global, text: &str) -> Result<String, AllocError> {
    let mut whole = String::from_str(alloc, ORDER_MARK)?;
    whole.push_str(text)?;
    Ok(whole)
}

/// The line, counted from 1, in which the byte after these is.
fn line_after(bytes: &[u8]) -> usize {
    let mut line = 1usize;
    for byte in bytes {
        if *byte == b'\n' {
            line = line.saturating_add(1);
        }
    }
    line
}

impl Source {
    /// What a file has that holds all this.
    fn of(alloc: Global, whole: String) -> Result<Source, AllocError> {
        let rest = match whole.as_str().strip_prefix(ORDER_MARK) {
            Some(rest) => Some(String::from_str(alloc, rest)?),
            None => None,
        };
        match rest {
            Some(text) => Ok(Source {
                has_mark: true,
                text,
            }),
            None => Ok(Source {
                has_mark: false,
                text: whole,
            }),
        }
    }

    /// The edit that gives the file at a path another text.
    pub fn edit(self, alloc: Global, path: String, new: String) -> Result<Edit, AllocError> {
        let Source { has_mark, text } = self;
        if !has_mark {
            return Ok(Edit {
                path,
                old: text,
                new,
            });
        }
        Ok(Edit {
            path,
            old: marked(alloc, text.as_str())?,
            new: marked(alloc, new.as_str())?,
        })
    }
}

impl Site {
    /// What the file with this path in the tree has. A link is no file.
    pub fn source_at(&self, rt: &HostRuntime, path: &str) -> Result<Source, Fault> {
        let shown = self.root.shown(rt.alloc(), path)?;
        let bytes = match self.root.read(rt, path) {
            Ok(bytes) => bytes,
            Err(error) => return Err(Fault::unreadable(rt.alloc(), shown.as_str(), error)),
        };
        match String::from_utf8(bytes) {
            Ok(whole) => Ok(Source::of(rt.alloc(), whole)?),
            Err(error) => {
                let end = error.utf8_error().valid_up_to();
                let line = line_after(error.as_bytes().get(..end).unwrap_or(&[]));
                Err(Fault::NotUtf8(shown, line))
            }
        }
    }
}
