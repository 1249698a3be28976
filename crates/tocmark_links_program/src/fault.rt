//! Why a call or a file fails.

use std::alloc::{AllocError, AllocFailed, Global};
use std::{fmt, io};
use tocmark_files::quoted::in_quotes;
use tocmark_files::replace::ReplaceError;
use tocmark_files::trust::Distrust;
use tocmark_links::changed;

/// What is said of a file without a place for its contents.
const NO_CONTENTS: &str = "has no line <!-- toc --> with a line <!-- tocstop --> below it";

/// What is said of a line that would parse differently in more than what is changed.
const MISREAD: &str =
    "this block would parse differently; nothing was changed, so edit it yourself first";

/// What is said of a line where more than a list is between the lines for the contents of a file.
const NO_LIST: &str =
    "only a list can be between <!-- toc --> and <!-- tocstop -->; nothing was changed";

/// What is said of a path at which nothing is.
pub const MISSING: &str = "there is no such file or folder";

/// Why a call or a file fails, shown as one line on standard error, after the name of the program. Paths are quoted.
#[derive(Debug, Drop)]
pub enum Fault {
    /// The arguments are wrong.
    Usage(&'static str),
    /// A path, and what is wrong with it.
    Path(String, &'static str),
    Unreadable(String, io::Error),
    /// A file that says what is ignored, and why it doesn't count. Its folder isn't looked into.
    Distrusted(String, Distrust),
    /// A file and its first line that isn't UTF-8.
    NotUtf8(String, usize),
    /// A file, a line of it, and why nothing is changed.
    Line(String, usize, &'static str),
    /// A file that isn't replaced, and why. All others are as they were.
    NotReplaced(String, ReplaceError),
    /// A path that can't be moved or made, and why. All files are as they were.
    NotMoved(String, io::Error),
    /// A file that isn't replaced or moved, and another one that keeps its new text, because its old one can't be put back.
    Left(String, String),
    /// The file that says what a call does while it writes, and what it says.
    Running(String, String),
    /// A place of the command line that names no heading, and one that is near.
    NoHeading(String, Option<String>),
    Output(io::Error),
    /// Everything is changed, but standard output can't say so.
    Unreported(io::Error),
    OutOfMemory,
}

impl Fault {
    /// A path, and what is wrong with it.
    pub fn path(alloc: Global, path: &str, why: &'static str) -> Fault {
        match in_quotes(alloc, path) {
            Ok(path) => Fault::Path(path, why),
            Err(_) => Fault::OutOfMemory,
        }
    }

    /// A file or folder that can't be read, or isn't there.
    pub fn unreadable(alloc: Global, path: &str, error: io::Error) -> Fault {
        if error.kind() == io::ErrorKind::NotFound {
            return Fault::path(alloc, path, MISSING);
        }
        match in_quotes(alloc, path) {
            Ok(path) => Fault::Unreadable(path, error),
            Err(_) => Fault::OutOfMemory,
        }
    }

    /// Whether other files can still be read.
    pub fn is_of_file(&self) -> bool {
        matches!(
            self,
            Fault::Path(..) | Fault::Unreadable(..) | Fault::NotUtf8(..)
        )
    }

    /// Whether standard output can't be written.
    pub fn is_of_output(&self) -> bool {
        matches!(self, Fault::Output(_))
    }

    /// Whether nobody reads standard output any more.
    pub fn is_broken_pipe(&self) -> bool {
        match self {
            Fault::Output(error) => error.kind() == io::ErrorKind::BrokenPipe,
            _ => false,
        }
    }
}

/// Why the text of a file isn't changed.
pub fn fault_of(path: String, fault: changed::Fault) -> Fault {
    match fault {
        changed::Fault::OutOfMemory => Fault::OutOfMemory,
        changed::Fault::Misread { line } => Fault::Line(path, line, MISREAD),
        changed::Fault::NoWords => Fault::Usage(
            "the words of a heading are one line, and not empty",
        ),
        changed::Fault::NoContents => Fault::Path(path, NO_CONTENTS),
        changed::Fault::NoList { line } => Fault::Line(path, line, NO_LIST),
    }
}

impl fmt::Display for Fault {
    fn fmt<W: fmt::Write>(&self, f: &mut fmt::Formatter<W>) -> fmt::Result {
        match self {
            Fault::Usage(why) => f.write_str(why),
            Fault::Path(path, why) => write!(f, "{path}: {why}"),
            Fault::Unreadable(path, error) => write!(f, "{path}: cannot be read: {error}"),
            Fault::Distrusted(path, why) => write!(f, "{path}: {why}"),
            Fault::NotUtf8(path, line) => write!(f, "{path}: line {line} is not UTF-8"),
            Fault::Line(path, line, why) => write!(f, "{path}:{line}: {why}"),
            Fault::NotReplaced(path, error) => write!(f, "{path}: {error}; nothing was changed"),
            Fault::NotMoved(path, error) => {
                write!(f, "{path}: cannot be moved: {error}; nothing was changed")
            }
            Fault::Left(path, left) => write!(
                f,
                "{path}: cannot be changed; {left} and files before it have new links that could not be taken back"
            ),
            Fault::Running(path, text) => write!(
                f,
                "{path}: another call writes now or was interrupted: {text}; look at the files, then remove this one"
            ),
            Fault::NoHeading(place, Some(near)) => {
                write!(f, "{place}: no heading has this anchor; {near} is near")
            }
            Fault::NoHeading(place, None) => write!(f, "{place}: no heading has this anchor"),
            Fault::Output(error) => write!(f, "standard output cannot be written: {error}"),
            Fault::Unreported(error) => write!(
                f,
                "everything was changed, but standard output cannot be written: {error}"
            ),
            Fault::OutOfMemory => f.write_str("out of memory"),
        }
    }
}

impl From<AllocError> for Fault {
    fn from(_fault: AllocError) -> Fault {
        Fault::OutOfMemory
    }
}

impl<T: Drop> From<AllocFailed<T>> for Fault {
    fn from(_fault: AllocFailed<T>) -> Fault {
        Fault::OutOfMemory
    }
}
