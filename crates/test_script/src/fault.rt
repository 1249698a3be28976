//! Why the whole program ends without an answer.

use thiserror::Error;

/// A fault of the program, shown as one line on standard error.
#[derive(Debug, Drop, Error)]
pub enum Fault {
    #[error("usage: test_script [--rows FILE..]")]
    Usage,
    #[error("test_script: cannot read standard input")]
    Read,
    #[error("test_script: standard input is not UTF-8")]
    NotUtf8,
    #[error("test_script: cannot write standard output")]
    Write,
    #[error("test_script: cannot read a file of rows, or write standard output, or memory ran out")]
    Rows,
}
