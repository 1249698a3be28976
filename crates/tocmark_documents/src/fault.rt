//! The errors.

ghost use Rattle.std.specs.Prelude.{◌≡◌};
ghost use Rattle.tocmark_documents.specs.declared.fault.RewriteError.TheVariants.{OutOfMemory as no_memory};
ghost use Rattle.tocmark_documents.specs.declared.fault.WriteError.TheVariants.{OutOfMemory as out_of_memory};

use std::alloc::{AllocError, AllocFailed};
use std::fmt;
use tocmark::{Error, OptionsError};
use tocmark_json::fault::JsonError;
use tocmark_rewrite::Place;

/// Writes where an error is: the number of the event, and its lines if they are known.
pub(crate) fn write_place<W: fmt::Write>(f: &mut fmt::Formatter<W>, place: Place) -> fmt::Result {
    let event = place.event;
    match place.lines {
        None => write!(f, "event {event}: "),
        Some((first, last)) if first == last => write!(f, "event {event}, line {first}: "),
        Some((first, last)) => write!(f, "event {event}, lines {first} to {last}: "),
    }
}

/// Why events aren't written.
#[derive(Debug, Drop)]
pub enum WriteError {
    /// The text isn't JSON, or is nested deeper than the kit's JSON reads.
    NotJson(serde_json::Error),
    /// The JSON isn't that of events.
    NotEvents(JsonError),
    /// The writer refuses the block that begins at this place, or the event there.
    Refused(Place, Error),
    /// Memory ran out.
    OutOfMemory,
}

impl From<AllocError> for WriteError {
    ghost from_gives = { λ _ e. e ≡ out_of_memory };

    fn from(_fault: AllocError) -> WriteError {
        WriteError::OutOfMemory
    }
}

impl<T: Drop> From<AllocFailed<T>> for WriteError {
    ghost from_gives = { λ _ e. e ≡ out_of_memory };

    fn from(_fault: AllocFailed<T>) -> WriteError {
        WriteError::OutOfMemory
    }
}

impl fmt::Display for WriteError {
    fn fmt<W: fmt::Write>(&self, f: &mut fmt::Formatter<W>) -> fmt::Result {
        match self {
            WriteError::NotJson(error) => write!(f, "the text is no JSON: {error}"),
            WriteError::NotEvents(error) => write!(f, "{error}"),
            WriteError::Refused(place, error) => {
                write_place(f, *place)?;
                write!(f, "{error}")
            }
            WriteError::OutOfMemory => write!(f, "out of memory"),
        }
    }
}

impl std::error::Error for WriteError {}

/// Why a source isn't rewritten.
#[derive(Debug, Drop)]
pub enum RewriteError {
    /// The text isn't JSON, or is nested deeper than the kit's JSON reads.
    NotJson(serde_json::Error),
    /// The JSON isn't that of events.
    NotEvents(JsonError),
    /// The writer refuses the block that begins at this place, or the event there has no place.
    Refused(Place, Error),
    /// Every text that was tried parses to other events; this is the first block at which the first text does.
    ReadOtherwise(Place),
    /// Memory ran out.
    OutOfMemory,
}

impl From<AllocError> for RewriteError {
    ghost from_gives = { λ _ e. e ≡ no_memory };

    fn from(_fault: AllocError) -> RewriteError {
        RewriteError::OutOfMemory
    }
}

impl<T: Drop> From<AllocFailed<T>> for RewriteError {
    ghost from_gives = { λ _ e. e ≡ no_memory };

    fn from(_fault: AllocFailed<T>) -> RewriteError {
        RewriteError::OutOfMemory
    }
}

impl fmt::Display for RewriteError {
    fn fmt<W: fmt::Write>(&self, f: &mut fmt::Formatter<W>) -> fmt::Result {
        match self {
            RewriteError::NotJson(error) => write!(f, "the text is no JSON: {error}"),
            RewriteError::NotEvents(error) => write!(f, "{error}"),
            RewriteError::Refused(place, error) => {
                write_place(f, *place)?;
                write!(f, "{error}")
            }
            RewriteError::ReadOtherwise(place) => {
                write_place(f, *place)?;
                write!(f, "no text was found that parses to these events")
            }
            RewriteError::OutOfMemory => write!(f, "out of memory"),
        }
    }
}

impl std::error::Error for RewriteError {}

/// Why events aren't written as a document that parses to them.
#[derive(Debug, Drop)]
pub enum DocumentError {
    /// The writer doesn't write them.
    Write(WriteError),
    /// The document would parse to other events. It wouldn't have the event of this number, counted from 0.
    Changed(usize),
}

impl fmt::Display for DocumentError {
    fn fmt<W: fmt::Write>(&self, f: &mut fmt::Formatter<W>) -> fmt::Result {
        match self {
            DocumentError::Write(error) => write!(f, "{error}"),
            DocumentError::Changed(place) => write!(
                f,
                "event {place}: the output would parse differently"
            ),
        }
    }
}

impl std::error::Error for DocumentError {}

/// Why options aren't taken.
#[derive(Debug, Drop)]
pub enum OptionsTextError {
    /// The text isn't JSON, or is nested deeper than the kit's JSON reads.
    NotJson(serde_json::Error),
    /// The JSON isn't that of options. The text says in a line what is wrong, at the first key at which it is.
    NotOptions(String),
    /// The writer doesn't take these options under these flags.
    Invalid(OptionsError),
    /// Memory ran out.
    OutOfMemory,
}

impl fmt::Display for OptionsTextError {
    fn fmt<W: fmt::Write>(&self, f: &mut fmt::Formatter<W>) -> fmt::Result {
        match self {
            OptionsTextError::NotJson(error) => write!(f, "the options are no JSON: {error}"),
            OptionsTextError::NotOptions(line) => write!(f, "the options: {line}"),
            OptionsTextError::Invalid(error) => write!(f, "{error}"),
            OptionsTextError::OutOfMemory => write!(f, "out of memory"),
        }
    }
}

impl std::error::Error for OptionsTextError {}

/// Why a value isn't that of options.
#[derive(Clone, Copy, Debug, PartialEq, Eq)]
pub enum OptionFault<'a> {
    /// The value isn't an object.
    NotAnObject,
    /// The key is unknown, or its value isn't one that the option can have.
    Wanted {
        /// The key in the object.
        key: &'a str,
        /// What is wanted there.
        wanted: &'static str,
    },
}

impl<'a> fmt::Display for OptionFault<'a> {
    ghost use Rattle.std.specs.Prelude.{Some};
    ghost use Rattle.tocmark_documents.specs.Options.{fault_line};

    ghost output = { λ fault. Some (fault_line fault) };

    fn fmt<W: fmt::Write>(&self, f: &mut fmt::Formatter<W>) -> fmt::Result {
        match self {
            OptionFault::NotAnObject => write!(f, "expected an object of options"),
            OptionFault::Wanted { key, wanted } => write!(f, "{key}: expected {wanted}"),
        }
    }
}

impl<'a> std::error::Error for OptionFault<'a> {}
