//! Why a file fails.

ghost use Rattle.std.specs.Prelude.{◌≡◌};
ghost use Rattle.tocmark_format_program.specs.Formats.{IsOutputFault};
ghost use Rattle.tocmark_format_program.specs.declared.fault.Fault.TheVariants.{OutOfMemory};

use std::alloc::{AllocError, AllocFailed};
use std::io;
use thiserror::Error;
use tocmark_files::replace::ReplaceError;
use tocmark_files::trust::Distrust;

/// What is wrong with one file. The message is after its name.
#[derive(Debug, Drop, Error)]
pub enum Fault {
    #[error("cannot be read: {0}")]
    Read(io::Error),
    /// Nothing has this name, which can be a glob.
    #[error("no such file; for a glob, pass --include GLOB and a folder")]
    Glob,
    #[error("line {0} is not UTF-8")]
    NotUtf8(usize),
    #[error("is not formatted: the name is not UTF-8")]
    Name,
    #[error("contains a name that is not UTF-8, which is skipped")]
    NameWithin,
    #[error("is no regular file")]
    NotRegular,
    #[error("is not formatted: no glob of include matches it; if it is Markdown, pass --include GLOB")]
    NotIncluded,
    #[error("{0}; no file below it is formatted, unless --no-ignore is passed")]
    Ignores(Distrust),
    #[error("{0}")]
    Replace(ReplaceError),
    #[error("standard output cannot be written: {0}")]
    Output(io::Error),
    #[error("out of memory")]
    OutOfMemory,
}

impl Fault {
    /// Whether nothing more can be written to standard output.
    pub fn is_of_output(&self) -> bool {
        match self {
            Fault::Output(_) => true,
            _ => false,
        }
    }

    /// Whether nobody reads standard output any more.
    pub fn is_broken_pipe(&self) -> bool {
        match self {
            Fault::Output(error) => error.kind() == io::ErrorKind::BrokenPipe,
            _ => false,
        }
    }
}

impl From<AllocError> for Fault {
    ghost from_gives = { λ _ e. e ≡ OutOfMemory };

    fn from(_fault: AllocError) -> Fault {
        Fault::OutOfMemory
    }
}

impl<T: Drop> From<AllocFailed<T>> for Fault {
    ghost from_gives = { λ _ e. e ≡ OutOfMemory };

    fn from(_fault: AllocFailed<T>) -> Fault {
        Fault::OutOfMemory
    }
}
