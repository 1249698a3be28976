//! Why a line of a script can't be read.

use crate::strings::Quoted;
use std::alloc::{AllocError, AllocFailed};
use std::fmt;
use tocmark_json::fault::Fault;

/// Why a line can't be read.
#[derive(Clone, Copy)]
pub enum LineFault {
    /// Something else is expected at this byte of the line.
    Expected {
        expected: &'static str,
        at: usize,
    },
    /// Its JSON has something else at this key than is wanted there.
    NotAnEvent {
        key: &'static str,
        wanted: &'static str,
    },
    /// What is wrong with the line as a whole.
    Wrong(&'static str),
    OutOfMemory,
}

impl From<AllocError> for LineFault {
    fn from(_fault: AllocError) -> LineFault {
        LineFault::OutOfMemory
    }
}

impl<T: Drop> From<AllocFailed<T>> for LineFault {
    fn from(_fault: AllocFailed<T>) -> LineFault {
        LineFault::OutOfMemory
    }
}

impl From<Fault> for LineFault {
    fn from(fault: Fault) -> LineFault {
        match fault {
            Fault::Wanted { key, wanted } => LineFault::NotAnEvent { key, wanted },
            Fault::OutOfMemory => LineFault::OutOfMemory,
        }
    }
}

/// The end of a line, of which `{}` names what it begins with: a word, a space or nothing.
#[derive(Clone, Copy)]
struct Found<'a>(&'a str);

impl fmt::Display for Found<'_> {
    fn fmt<W: fmt::Write>(&self, f: &mut fmt::Formatter<W>) -> fmt::Result {
        if self.0.is_empty() {
            return f.write_str("the end of the line");
        }
        let word = match self.0.split_once(' ') {
            Some((word, _)) => word,
            None => self.0,
        };
        if word.is_empty() {
            return f.write_str("a space");
        }
        let word = Quoted(word);
        write!(f, "{word}")
    }
}

/// A fault in a line, which `{}` writes with the line's number and the place in it.
#[derive(Clone, Copy)]
pub struct NumberedFault<'a> {
    /// The line's number, counted from 1.
    pub number: usize,
    pub line: &'a str,
    pub fault: LineFault,
}

/// The number of the character that begins at this byte of a line, counted from 1.
fn column(line: &str, at: usize) -> usize {
    let before = line.get(..at).unwrap_or("");
    before.chars().count().saturating_add(1)
}

impl fmt::Display for NumberedFault<'_> {
    fn fmt<W: fmt::Write>(&self, f: &mut fmt::Formatter<W>) -> fmt::Result {
        let number = self.number;
        write!(f, "line {number}")?;
        match self.fault {
            LineFault::Expected { expected, at } => {
                let column = column(self.line, at);
                let found = Found(self.line.get(at..).unwrap_or(""));
                write!(f, ", column {column}: expected {expected}, found {found}")
            }
            LineFault::NotAnEvent { key, wanted } => write!(f, ": {key}: expected {wanted}"),
            LineFault::Wrong(what) => write!(f, ": {what}"),
            LineFault::OutOfMemory => write!(f, ": out of memory"),
        }
    }
}
