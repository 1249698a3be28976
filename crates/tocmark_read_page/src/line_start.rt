//! Where a line is: in which text, and after which of the open containers.

use tocmark_read_lines::cell::{Columns, Cursor};
use tocmark_read_lines::line::Line;
use tocmark_read_scan::syntax::Syntax;

/// What is known of a text before its lines are read.
#[derive(Clone, Copy)]
pub struct Known {
    /// The extensions that are read.
    pub syntax: Syntax,
    /// The number of the last line that closes metadata of dashes; 0 where none does or they aren't read.
    pub yaml_end: usize,
    /// The number of the last line that closes metadata of pluses; 0 where none does or they aren't read.
    pub pluses_end: usize,
}

/// A cursor of a line, and how many of the open containers go on there.
#[derive(Clone, Copy)]
pub struct LineStart {
    pub cursor: Cursor,
    pub depth: usize,
}

/// A line with its columns, the text that it is in, and what is known of that.
#[derive(Clone, Copy)]
pub struct ScannedLine<'t, 'c> {
    pub known: Known,
    pub text: &'t [u8],
    pub cells: &'c Columns,
    pub line: Line,
}
