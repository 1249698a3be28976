//! The tails of links: `](destination "title")`.

use crate::source::is_blank;
use std::alloc::AllocError;

/// How long the destination at the front of a text is, as it is spelled.
fn destination_length(text: &str) -> usize {
    let bytes = text.as_bytes();
    if bytes.first() != Some(&b'<') {
        return bytes
            .iter()
            .take_while(|byte| !is_blank(**byte) && **byte != b'\n')
            .count();
    }
    let mut is_escaped = false;
    for (at, byte) in bytes.iter().enumerate() {
        if *byte == b'>' && !is_escaped {
            return at.saturating_add(1);
        }
        is_escaped = *byte == b'\\' && !is_escaped;
    }
    bytes.len()
}

/// Adds a title, between `"` if it can be there as it is spelled.
pub(crate) fn push_title(text: &mut String, title: &str) -> Result<(), AllocError> {
    let is_other = title.starts_with('\'') || title.starts_with('(');
    let inner = title.get(1..title.len().saturating_sub(1)).unwrap_or("");
    if is_other && !title.contains('"') {
        text.push('"')?;
        text.push_str(inner)?;
        text.push('"')
    } else {
        text.push_str(title)
    }
}

/// Adds `](destination "title")` with single blanks.
pub(crate) fn push_tail(text: &mut String, tail: &str) -> Result<(), AllocError> {
    let inner = tail.strip_prefix("](").unwrap_or(tail);
    let inner = inner.strip_suffix(')').unwrap_or(inner);
    let inner = inner.trim_matches(&[' ', '\t', '\n']);
    let length = destination_length(inner);
    let destination = inner.get(..length).unwrap_or(inner);
    let title = inner
        .get(length..)
        .unwrap_or("")
        .trim_matches(&[' ', '\t', '\n']);
    text.push_str("](")?;
    text.push_str(destination)?;
    if !title.is_empty() {
        text.push(' ')?;
        push_title(text, title)?;
    }
    text.push(')')
}
