//! Why the program ends without output.

ghost use Rattle.std.specs.Prelude.{◌≡◌};
ghost use Rattle.tocmark_events_program.specs.Events.{IsWriteFault};
ghost use Rattle.tocmark_events_program.specs.declared.fault.Fault.TheVariants.{OutOfMemory};

use std::alloc::{AllocError, AllocFailed};
use std::io;
use thiserror::Error;
use tocmark_command::streams::InputError;
use tocmark_documents::{DocumentError, OptionsTextError, RewriteError, StreamError, WriteError};
use tocmark_files::replace::ReplaceError;
use tocmark_json::fault::JsonError;

/// A fault, shown as one line on standard error, after the name of the program.
#[derive(Debug, Drop, Error)]
pub enum Fault {
    #[error("cannot read the input")]
    Read,
    /// A file that is named can't be read as UTF-8.
    #[error("{0}: cannot read it: {1}")]
    Unreadable(String, io::Error),
    #[error("{0}")]
    NotOptions(OptionsTextError),
    #[error("the input is not UTF-8")]
    NotUtf8,
    #[error("the input is no JSON: {0} (--lines reads an event from each line)")]
    NotJson(serde_json::Error),
    #[error("{0}")]
    NotEvents(JsonError),
    /// The element of this number has this value in the place of an event, and not what is wanted.
    #[error("event {0}: found {1}, expected {2}")]
    NoEvent(usize, String, &'static str),
    #[error("{0}")]
    Refused(WriteError),
    #[error("{0}")]
    NotRewritten(RewriteError),
    /// Links by this label lead to different destinations.
    #[error("{0}: links by the label {1} share its definition, so give them one destination and title, or make one Inline")]
    Contested(RewriteError, String),
    #[error("{0}")]
    NotRedefined(tocmark_definitions::Fault),
    #[error("event {0}: the output would parse differently (--unchecked writes it)")]
    Changed(usize),
    #[error("out of memory")]
    OutOfMemory,
    #[error("cannot write standard output")]
    Write,
    /// The file that is rewritten stays as it was.
    #[error("{0}: {1}")]
    NotReplaced(String, ReplaceError),
}

impl From<AllocError> for Fault {
    ghost from_gives = { λ _ e. e ≡ OutOfMemory };

    fn from(_fault: AllocError) -> Fault {
        Fault::OutOfMemory
    }
}

impl<T: Drop> From<AllocFailed<T>> for Fault {
    ghost from_gives = { λ _ e. e ≡ OutOfMemory };

    fn from(_fault: AllocFailed<T>) -> Fault {
        Fault::OutOfMemory
    }
}

impl From<InputError> for Fault {
    ghost from_gives = { λ _ e. ¬ (IsWriteFault e) };

    fn from(error: InputError) -> Fault {
        match error {
            InputError::Unreadable(_) => Fault::Read,
            InputError::NotUtf8 => Fault::NotUtf8,
        }
    }
}

impl From<StreamError> for Fault {
    fn from(error: StreamError) -> Fault {
        match error {
            StreamError::Output(_) => Fault::Write,
            StreamError::OutOfMemory => Fault::OutOfMemory,
        }
    }
}

impl From<WriteError> for Fault {
    ghost from_gives = { λ _ e. ¬ (IsWriteFault e) };

    fn from(error: WriteError) -> Fault {
        match error {
            WriteError::NotJson(error) => Fault::NotJson(error),
            WriteError::NotEvents(error) => Fault::NotEvents(error),
            WriteError::Refused(place, error) => Fault::Refused(WriteError::Refused(place, error)),
            WriteError::OutOfMemory => Fault::OutOfMemory,
        }
    }
}

impl From<RewriteError> for Fault {
    ghost from_gives = { λ _ e. ¬ (IsWriteFault e) };

    fn from(error: RewriteError) -> Fault {
        match error {
            RewriteError::NotJson(error) => Fault::NotJson(error),
            RewriteError::NotEvents(error) => Fault::NotEvents(error),
            RewriteError::Refused(place, error) => {
                Fault::NotRewritten(RewriteError::Refused(place, error))
            }
            RewriteError::ReadOtherwise(place) => {
                Fault::NotRewritten(RewriteError::ReadOtherwise(place))
            }
            RewriteError::OutOfMemory => Fault::OutOfMemory,
        }
    }
}

impl From<tocmark_definitions::Fault> for Fault {
    ghost from_gives = { λ _ e. ¬ (IsWriteFault e) };

    fn from(error: tocmark_definitions::Fault) -> Fault {
        Fault::NotRedefined(error)
    }
}

impl From<DocumentError> for Fault {
    ghost from_gives = { λ _ e. ¬ (IsWriteFault e) };

    fn from(error: DocumentError) -> Fault {
        match error {
            DocumentError::Write(error) => Fault::from(error),
            DocumentError::Changed(place) => Fault::Changed(place),
        }
    }
}

impl From<OptionsTextError> for Fault {
    fn from(error: OptionsTextError) -> Fault {
        Fault::NotOptions(error)
    }
}
