//! Edits of a text: what they make of it.

ghost use Rattle.std.specs.Prelude.{◌≡◌, IfOk, string_bytes};
ghost use Rattle.tocmark_lsp_text.specs.Edits.{edited};

use crate::positions::{Encoding, Position, place, position_at, rest, starts};
use std::alloc::{AllocError, Global};
use std::ops::Range;
use thiserror::Error;
use tocmark_files::changes::{Change, Lines, changes_of};

/// A text in place of what is between two positions.
#[derive(Drop)]
pub struct Edit {
    pub start: Position,
    pub stop: Position,
    pub text: String,
}

/// Why edits can't be applied, or aren't found.
#[derive(Debug, Drop, Error)]
pub enum EditError {
    #[error("out of memory")]
    OutOfMemory,
    /// An edit begins before the one above it ends.
    #[error("edits overlap")]
    Overlap,
    /// The edits that are found don't make the one text of the other.
    #[error("no edits are found")]
    NotFound,
}

impl From<AllocError> for EditError {
    fn from(_fault: AllocError) -> EditError {
        EditError::OutOfMemory
    }
}

/// A text after edits, which are in order. Their positions are those of the text before.
///
/// It fails if an edit begins before the one above it ends, or if memory runs out.
pub fn edited(
    alloc: Global,
    encoding: Encoding,
    text: &str,
    edits: &[Edit],
) -> Result<String, EditError>
    ensures { IfOk result (λ new. string_bytes new ≡ edited encoding text.now edits.now) }
{
    let starts = starts(alloc, text)?;
    let bytes = text.as_bytes();
    let mut whole = Vec::new(alloc);
    let mut at = 0usize;
    for edit in edits {
        let from = place(encoding, &starts, text, edit.start);
        let Some(kept) = bytes.get(at..from) else {
            return Err(EditError::Overlap);
        };
        whole.extend_from_slice(kept)?;
        whole.extend_from_slice(edit.text.as_bytes())?;
        at = place(encoding, &starts, text, edit.stop);
    }
    whole.extend_from_slice(rest(bytes, at))?;
    match String::from_utf8(whole) {
        Ok(new) => Ok(new),
        Err(_) => Err(EditError::Overlap),
    }
}

/// The lines of a text that begin at these places, each with its end. An empty last one is left out.
fn lines_of<'t>(
    alloc: Global,
    text: &'t str,
    starts: &[usize],
) -> Result<Vec<&'t str>, AllocError> {
    let mut lines = Vec::new(alloc);
    for (number, start) in starts.iter().enumerate() {
        let next = starts.get(number.saturating_add(1)).copied();
        let line = text.get(*start..next.unwrap_or(text.len())).unwrap_or("");
        if !line.is_empty() {
            lines.push(line)?;
        }
    }
    Ok(lines)
}

/// Lines as one text.
fn joined(alloc: Global, lines: &[&str]) -> Result<String, AllocError> {
    let mut text = String::new(alloc);
    for line in lines {
        text.push_str(line)?;
    }
    Ok(text)
}

/// Where a line begins, or the end of the text after its last line.
fn start_of(encoding: Encoding, starts: &[usize], text: &str, line: usize) -> Position {
    if line < starts.len() {
        Position { line, character: 0 }
    } else {
        position_at(encoding, starts, text, text.len())
    }
}

/// The edits by which lines change.
fn edits_of(
    alloc: Global,
    encoding: Encoding,
    old: &str,
    new: &str,
) -> Result<Vec<Edit>, AllocError> {
    let (old_starts, new_starts) = (starts(alloc, old)?, starts(alloc, new)?);
    let old_lines = lines_of(alloc, old, &old_starts)?;
    let new_lines = lines_of(alloc, new, &new_starts)?;
    let lines = Lines {
        old: &old_lines,
        new: &new_lines,
    };
    let mut edits = Vec::new(alloc);
    for change in &changes_of(alloc, lines)? {
        let Range { start, end } = &change.new;
        let text = joined(alloc, new_lines.get(*start..*end).unwrap_or(&[]))?;
        edits.push(Edit {
            start: start_of(encoding, &old_starts, old, change.old.start),
            stop: start_of(encoding, &old_starts, old, change.old.end),
            text,
        })?;
    }
    Ok(edits)
}

/// The edits, in order, that make one text of another. Each puts lines in place of lines, and lines that both texts have stay.
///
/// It fails if memory runs out. `EditError::NotFound` isn't expected: the edits are applied and compared before they are
/// returned.
pub fn line_edits(
    alloc: Global,
    encoding: Encoding,
    old: &str,
    new: &str,
) -> Result<Vec<Edit>, EditError>
    ensures { IfOk result (λ edits. edited encoding old.now edits.items ≡ new.now) }
{
    let edits = edits_of(alloc, encoding, old, new)?;
    let made = edited(alloc, encoding, old, &edits)?;
    if made.as_str() == new {
        Ok(edits)
    } else {
        Err(EditError::NotFound)
    }
}
