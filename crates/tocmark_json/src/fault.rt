//! Why a JSON text isn't read, and why a value is no event.

ghost use Rattle.std.specs.Prelude.{◌≡◌};
ghost use Rattle.tocmark_json.specs.Place.{read_error_of};
ghost use Rattle.tocmark_json.specs.declared.fault.Fault.TheVariants.{OutOfMemory as no_memory};
ghost use Rattle.tocmark_json.specs.declared.fault.ReadError.TheVariants.{OutOfMemory as out_of_memory};
ghost use Rattle.tocmark_json.specs.declared.fault.TextError.TheVariants.{NotJson as not_json, OutOfMemory as memory};

use std::alloc::{AllocError, AllocFailed};
use std::fmt;

/// What is wrong with a value within an event.
#[derive(Clone, Copy, Debug, PartialEq, Eq)]
pub enum Fault {
    /// Something else is wanted at this key.
    Wanted {
        /// The nearest key.
        key: &'static str,
        /// What should be there.
        wanted: &'static str,
    },
    /// Memory ran out.
    OutOfMemory,
}

impl From<AllocError> for Fault {
    ghost from_gives = { λ _ e. e ≡ no_memory };

    fn from(_fault: AllocError) -> Fault {
        Fault::OutOfMemory
    }
}

impl<T: Drop> From<AllocFailed<T>> for Fault {
    ghost from_gives = { λ _ e. e ≡ no_memory };

    fn from(_fault: AllocFailed<T>) -> Fault {
        Fault::OutOfMemory
    }
}

/// Why a value isn't a list of events.
#[derive(Clone, Copy, Debug, PartialEq, Eq)]
pub enum JsonError {
    /// The value isn't an array.
    NotAnArray,
    /// An element of the array isn't an event.
    Event {
        /// The element's number, counted from 0.
        index: usize,
        /// The nearest key.
        key: &'static str,
        /// What should be there.
        wanted: &'static str,
    },
}

impl fmt::Display for JsonError {
    fn fmt<W: fmt::Write>(&self, f: &mut fmt::Formatter<W>) -> fmt::Result {
        match self {
            JsonError::NotAnArray => write!(f, "the JSON is no array of events"),
            JsonError::Event { index, key, wanted } => {
                write!(f, "event {index}: {key}: expected {wanted}")
            }
        }
    }
}

impl std::error::Error for JsonError {}

/// Why a text isn't read as a JSON value.
#[derive(Clone, Copy, Debug, Drop, PartialEq, Eq)]
pub enum TextError {
    /// The text isn't JSON, has a number out of range, or is nested deeper than 127.
    NotJson,
    /// Memory ran out.
    OutOfMemory,
}

impl From<json::Invalid> for TextError {
    ghost from_gives = { λ _ e. e ≡ not_json };

    fn from(_invalid: json::Invalid) -> TextError {
        TextError::NotJson
    }
}

impl From<AllocError> for TextError {
    ghost from_gives = { λ _ e. e ≡ memory };

    fn from(_fault: AllocError) -> TextError {
        TextError::OutOfMemory
    }
}

impl<T: Drop> From<AllocFailed<T>> for TextError {
    ghost from_gives = { λ _ e. e ≡ memory };

    fn from(_fault: AllocFailed<T>) -> TextError {
        TextError::OutOfMemory
    }
}

/// Why a text isn't the JSON of events.
#[derive(Clone, Copy, Debug, Drop, PartialEq, Eq)]
pub enum ReadError {
    /// The text isn't JSON, has a number out of range, or is nested deeper than 127.
    NotJson,
    /// The JSON isn't that of events.
    NotEvents(JsonError),
    /// Memory ran out.
    OutOfMemory,
}

impl From<AllocError> for ReadError {
    ghost from_gives = { λ _ e. e ≡ out_of_memory };

    fn from(_fault: AllocError) -> ReadError {
        ReadError::OutOfMemory
    }
}

impl From<TextError> for ReadError {
    ghost from_gives = { λ fault e. e ≡ read_error_of fault };

    fn from(fault: TextError) -> ReadError {
        match fault {
            TextError::NotJson => ReadError::NotJson,
            TextError::OutOfMemory => ReadError::OutOfMemory,
        }
    }
}
