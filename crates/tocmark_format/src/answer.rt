//! What comes out of formatting a document.

use std::fmt;

/// Why a block keeps its lines.
#[derive(Clone, Copy)]
pub enum Reason {
    /// Its printed form parses differently.
    ReadOtherwise,
    /// The prefixes of its containers would make the output too large.
    Outgrown,
}

impl fmt::Display for Reason {
    fn fmt<W: fmt::Write>(&self, f: &mut fmt::Formatter<W>) -> fmt::Result {
        match self {
            Reason::ReadOtherwise => write!(f, "it would be read otherwise"),
            Reason::Outgrown => write!(f, "its containers would outgrow its text"),
        }
    }
}

/// A block that was left as it is.
#[derive(Drop)]
pub struct Left {
    /// Its first and its last line in the source, counted from 1.
    pub lines: (usize, usize),
    pub reason: Reason,
}

/// The new text.
#[derive(Drop)]
pub struct Formatted {
    pub text: String,
    /// The blocks that were left as they are, in their order.
    pub left: Vec<Left>,
}
