//! What is wrong with a call or a file.

use std::alloc::{AllocError, AllocFailed, Global};
use std::{fmt, io};
use tocmark_differences::KINDS;
use tocmark_files::quoted::in_quotes;
use tocmark_files::replace::ReplaceError;

/// Why a file or a call fails, shown as one line on standard error, after the name of the program.
#[derive(Debug, Drop)]
pub enum Fault {
    /// The arguments are wrong.
    Usage(&'static str),
    /// `--allow` has this value, which names no kind.
    NoKind(String),
    /// One path is a folder, and the other one isn't.
    Mixed(String, String),
    Unreadable(String, io::Error),
    /// A file and its first line that isn't UTF-8.
    NotUtf8(String, usize),
    /// A file that isn't replaced. It stays as it was.
    NotReplaced(String, ReplaceError),
    Output(io::Error),
    OutOfMemory,
}

impl Fault {
    /// `--allow` has this value, which names no kind.
    pub fn no_kind(alloc: Global, value: &str) -> Fault {
        match in_quotes(alloc, value) {
            Ok(value) => Fault::NoKind(value),
            Err(_) => Fault::OutOfMemory,
        }
    }

    /// The first path is a folder, and the other one isn't.
    pub fn mixed(alloc: Global, folder: &str, other: &str) -> Result<Fault, AllocError> {
        Ok(Fault::Mixed(in_quotes(alloc, folder)?, in_quotes(alloc, other)?))
    }

    /// A file that can't be read.
    pub fn unreadable(alloc: Global, name: &str, error: io::Error) -> Fault {
        match in_quotes(alloc, name) {
            Ok(name) => Fault::Unreadable(name, error),
            Err(_) => Fault::OutOfMemory,
        }
    }

    /// A file that isn't UTF-8 in this line.
    pub fn not_utf8(alloc: Global, name: &str, line: usize) -> Fault {
        match in_quotes(alloc, name) {
            Ok(name) => Fault::NotUtf8(name, line),
            Err(_) => Fault::OutOfMemory,
        }
    }

    /// A file that isn't replaced.
    pub fn not_replaced(alloc: Global, name: &str, error: ReplaceError) -> Fault {
        match in_quotes(alloc, name) {
            Ok(name) => Fault::NotReplaced(name, error),
            Err(_) => Fault::OutOfMemory,
        }
    }

    /// Whether other files can still be compared.
    pub fn is_of_file(&self) -> bool {
        matches!(
            self,
            Fault::Unreadable(..) | Fault::NotUtf8(..) | Fault::NotReplaced(..)
        )
    }

    /// Whether nobody reads standard output any more.
    pub fn is_broken_pipe(&self) -> bool {
        match self {
            Fault::Output(error) => error.kind() == io::ErrorKind::BrokenPipe,
            _ => false,
        }
    }
}

/// Writes that `--allow` has this value, which names no kind.
fn write_no_kind<W: fmt::Write>(f: &mut fmt::Formatter<W>, value: &str) -> fmt::Result {
    write!(f, "--allow has no kind {value}; it wants one of")?;
    let mut mark = " ";
    for (name, _) in &KINDS {
        write!(f, "{mark}{name}")?;
        mark = ", ";
    }
    Ok(())
}

impl fmt::Display for Fault {
    fn fmt<W: fmt::Write>(&self, f: &mut fmt::Formatter<W>) -> fmt::Result {
        match self {
            Fault::Usage(why) => f.write_str(why),
            Fault::NoKind(value) => write_no_kind(f, value.as_str()),
            Fault::Mixed(folder, other) => write!(f, "{folder} is a folder, but {other} is none"),
            Fault::Unreadable(name, error) => write!(f, "{name}: cannot be read: {error}"),
            Fault::NotUtf8(name, line) => write!(f, "{name}: line {line} is not UTF-8"),
            Fault::NotReplaced(name, error) => write!(f, "{name}: {error}"),
            Fault::Output(error) => write!(f, "standard output cannot be written: {error}"),
            Fault::OutOfMemory => f.write_str("out of memory"),
        }
    }
}

impl From<AllocError> for Fault {
    fn from(_fault: AllocError) -> Fault {
        Fault::OutOfMemory
    }
}

impl<T: Drop> From<AllocFailed<T>> for Fault {
    fn from(_fault: AllocFailed<T>) -> Fault {
        Fault::OutOfMemory
    }
}
