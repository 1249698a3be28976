//! Why the program ends without output.

use thiserror::Error;
use tocmark::Error as MarkdownError;

/// A fault, shown as one line on standard error.
#[derive(Debug, Drop, Error)]
pub enum Fault {
    #[error("usage: tocmark [--source]")]
    Usage,
    #[error("tocmark: cannot read standard input")]
    Read,
    #[error("tocmark: standard input is not UTF-8")]
    NotUtf8,
    #[error("tocmark: {0}")]
    Markdown(MarkdownError),
    #[error("tocmark: cannot write standard output")]
    Write,
}
