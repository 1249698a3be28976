//! Why a document isn't rewritten.

ghost use Rattle.std.specs.Prelude.{◌≡◌};
ghost use Rattle.tocmark_rewrite.specs.declared.fault.Fault.TheVariants.{OutOfMemory};

use std::alloc::{AllocError, AllocFailed};
use std::fmt;
use tocmark_event::options::Error;

/// A block of the edited events.
#[derive(Clone, Copy, Debug, PartialEq, Eq)]
pub struct Place {
    /// The index of its first event in the list that you passed.
    pub event: usize,
    /// The first and the last line of the source's block that it replaces, counted from 1; none if it is new.
    pub lines: Option<(usize, usize)>,
}

/// Why there is no new text. The source and the events are still yours.
#[derive(Debug, Drop)]
pub enum Fault {
    /// Memory ran out.
    OutOfMemory,
    /// The writer has no text for this block, for this reason.
    Refused(Place, Error),
    /// Each text that was tried parses to other events, or lacks a label that the source defines. This is the first block
    /// at which the first text does. Some events have no text, such as a heading of level 3 with a line break:
    /// `join_heading_lines` of `edits` removes those.
    ReadOtherwise(Place),
}

impl fmt::Display for Place {
    fn fmt<W: fmt::Write>(&self, f: &mut fmt::Formatter<W>) -> fmt::Result {
        match self.lines {
            Some((first, last)) => write!(f, "lines {first} to {last}"),
            None => write!(f, "event {}", self.event),
        }
    }
}

impl fmt::Display for Fault {
    fn fmt<W: fmt::Write>(&self, f: &mut fmt::Formatter<W>) -> fmt::Result {
        match self {
            Fault::OutOfMemory => write!(f, "out of memory"),
            Fault::Refused(place, error) => write!(f, "{place}: {error}"),
            Fault::ReadOtherwise(place) => write!(f, "{place}: no text is read as these events"),
        }
    }
}

impl std::error::Error for Fault {}

impl From<AllocError> for Fault {
    ghost from_gives = { λ _ e. e ≡ OutOfMemory };

    fn from(_fault: AllocError) -> Fault {
        Fault::OutOfMemory
    }
}

impl<T: Drop> From<AllocFailed<T>> for Fault {
    ghost from_gives = { λ _ e. e ≡ OutOfMemory };

    fn from(_fault: AllocFailed<T>) -> Fault {
        Fault::OutOfMemory
    }
}
