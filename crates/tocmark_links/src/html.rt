//! Attributes of HTML that name or lead to places.

use std::alloc::{AllocError, Global};
use tocmark_read_scan::basic::{byte_at, bytes_between, starts_at};
use tocmark_read_scan::class::{Class, run_end};
use tocmark_read_tokens::html::open_tag;

/// The value of an attribute in a text.
#[derive(Clone, Copy)]
pub struct Value {
    /// Whether it leads somewhere (`href`, `src`), or names a place (`id`, `name`).
    pub leads: bool,
    /// Its bytes, without quotation marks.
    pub start: usize,
    pub end: usize,
}

/// What an attribute with this name does: true if it leads somewhere, false if it names a place.
fn kind_of(name: &[u8]) -> Option<bool> {
    if name.eq_ignore_ascii_case(b"href") || name.eq_ignore_ascii_case(b"src") {
        Some(true)
    } else if name.eq_ignore_ascii_case(b"id") || name.eq_ignore_ascii_case(b"name") {
        Some(false)
    } else {
        None
    }
}

/// The place of the next such byte, or the end.
fn next_byte(bytes: &[u8], at: usize, end: usize, byte: u8) -> usize {
    let before = bytes_between(bytes, at, end)
        .iter()
        .take_while(|b| **b != byte)
        .count();
    at.saturating_add(before)
}

/// The place after a comment that begins here; the end, if it doesn't end.
fn after_comment(bytes: &[u8], at: usize, end: usize) -> usize {
    for place in at..end {
        if starts_at(bytes, place, b"-->") {
            return place.saturating_add(3);
        }
    }
    end
}

/// The value after an attribute's name, and the place after it.
fn value_at(bytes: &[u8], place: usize, end: usize) -> Option<(usize, usize, usize)> {
    let at = run_end(bytes, place, Class::White);
    if byte_at(bytes, at) != b'=' {
        return None;
    }
    let start = run_end(bytes, at.saturating_add(1), Class::White);
    let first = byte_at(bytes, start);
    if first == b'"' || first == b'\'' {
        let start = start.saturating_add(1);
        let close = next_byte(bytes, start, end, first);
        return Some((start, close, close.saturating_add(1)));
    }
    let close = run_end(bytes, start, Class::Unquoted);
    Some((start, close, close))
}

/// Adds the values of a tag between these bytes, and says where the last one ends.
fn add_of_tag(
    values: &mut Vec<Value>,
    bytes: &[u8],
    from: usize,
    end: usize,
) -> Result<(), AllocError> {
    let mut at = run_end(bytes, from, Class::AttributeName);
    for _ in from..end {
        let start = run_end(bytes, at, Class::White);
        let name_end = run_end(bytes, start, Class::AttributeName);
        if start >= end || name_end <= start {
            break;
        }
        at = name_end;
        if let Some((from, to, after)) = value_at(bytes, name_end, end) {
            if let Some(leads) = kind_of(bytes_between(bytes, start, name_end)) {
                values.push(Value {
                    leads,
                    start: from,
                    end: to,
                })?;
            }
            at = after;
        }
    }
    Ok(())
}

/// The values of attributes that lead to places or name them, in the HTML between these bytes of a text.
pub fn values(
    alloc: Global,
    bytes: &[u8],
    from: usize,
    end: usize,
) -> Result<Vec<Value>, AllocError> {
    let mut values = Vec::new(alloc);
    let mut at = from;
    for _ in from..end {
        at = next_byte(bytes, at, end, b'<');
        if at >= end {
            break;
        }
        if starts_at(bytes, at, b"<!--") {
            at = after_comment(bytes, at, end);
        } else if let Some(close) = open_tag(bytes, at) {
            add_of_tag(&mut values, bytes, at.saturating_add(1), close.min(end))?;
            at = close;
        } else {
            at = at.saturating_add(1);
        }
    }
    Ok(values)
}
