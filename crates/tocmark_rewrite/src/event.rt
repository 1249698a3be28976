//! Single events that are replaced by themselves: raw HTML, info strings, levels of headings, boxes of tasks.

use crate::edits::number_of;
use crate::patch::Patch;
use crate::source_bytes::{byte_at, run_end, run_start};
use crate::trees::line_end;
use std::alloc::{AllocError, Global};
use tocmark_event::event::{CodeBlockKindOf, Event, HeadingLevel, Tag};

/// So many of a character.
pub(crate) fn repeated(alloc: Global, mark: char, count: usize) -> Result<String, AllocError> {
    let mut text = String::new(alloc);
    for _ in 0..count {
        text.push(mark)?;
    }
    Ok(text)
}

/// A text with a backslash before each character that may be taken for a mark.
pub(crate) fn spelled_text(alloc: Global, text: &str) -> Result<String, AllocError> {
    let mut spelled = String::new(alloc);
    for (at, c) in text.char_indices() {
        if "\\`*_[]<>&~$^|".contains(c) || at == 0 && c.is_ascii_punctuation() {
            spelled.push('\\')?;
        }
        spelled.push(c)?;
    }
    Ok(spelled)
}

/// A heading of another level: its `#`, or the line under it.
fn heading_patch(
    alloc: Global,
    source: &str,
    range: (usize, usize),
    old: HeadingLevel,
    new: HeadingLevel,
) -> Result<Option<Patch>, AllocError> {
    if byte_at(source, range.0) == b'#' {
        return Ok(Some(Patch {
            from: range.0,
            to: range.0.saturating_add(number_of(old)),
            text: repeated(alloc, '#', number_of(new))?,
        }));
    }
    let (mark, other) = match (old, new) {
        (HeadingLevel::H1, HeadingLevel::H2) => (b'=', '-'),
        (HeadingLevel::H2, HeadingLevel::H1) => (b'-', '='),
        _ => return Ok(None),
    };
    let mut to = range.1.min(source.len());
    for byte in [b'\n', b'\r', b'\t', b' '] {
        to = run_start(source, to, byte);
    }
    let from = run_start(source, to, mark);
    Ok(Some(Patch {
        from,
        to,
        text: repeated(alloc, other, to.saturating_sub(from))?,
    }))
}

/// A fenced code block with another info string.
fn info_patch(
    alloc: Global,
    source: &str,
    begins: usize,
    new: &str,
) -> Result<Option<Patch>, AllocError> {
    let mark = byte_at(source, begins);
    if mark != b'`' && mark != b'~' {
        return Ok(None);
    }
    let fence = run_end(source, begins, mark);
    Ok(Some(Patch {
        from: run_end(source, fence, b' '),
        to: line_end(source.as_bytes(), fence),
        text: String::from_str(alloc, new)?,
    }))
}

/// Raw HTML that says something else.
fn html_patch(
    alloc: Global,
    range: (usize, usize),
    new: &str,
) -> Result<Option<Patch>, AllocError> {
    Ok(Some(Patch {
        from: range.0,
        to: range.1,
        text: String::from_str(alloc, new)?,
    }))
}

/// A task's box that is ticked, or isn't any more.
fn box_patch(
    alloc: Global,
    range: (usize, usize),
    is_ticked: bool,
) -> Result<Option<Patch>, AllocError> {
    Ok(Some(Patch {
        from: range.0.saturating_add(1),
        to: range.1.saturating_sub(1),
        text: String::from_str(alloc, if is_ticked { "x" } else { " " })?,
    }))
}

/// What of an event can be replaced by itself.
#[derive(Clone, Copy)]
enum ReplaceablePart<'t> {
    Box(bool),
    Html(&'t str),
    Info(&'t str),
    Level(HeadingLevel),
}

fn replaceable_part_of_tag<'t>(tag: &'t Tag<'_>) -> Option<ReplaceablePart<'t>> {
    match tag {
        Tag::CodeBlock(CodeBlockKindOf::Fenced(info)) => Some(ReplaceablePart::Info(info.as_ref())),
        Tag::Heading { level, .. } => Some(ReplaceablePart::Level(*level)),
        _ => None,
    }
}

fn replaceable_part<'t>(event: &'t Event<'_>) -> Option<ReplaceablePart<'t>> {
    match event {
        Event::Start(tag) => replaceable_part_of_tag(tag),
        Event::Html(text) => Some(ReplaceablePart::Html(text.as_ref())),
        Event::InlineHtml(text) => Some(ReplaceablePart::Html(text.as_ref())),
        Event::TaskListMarker(is_ticked) => Some(ReplaceablePart::Box(*is_ticked)),
        _ => None,
    }
}

/// The patch for an event of the source that was changed; none where there is no small one.
pub(crate) fn event_patch(
    alloc: Global,
    source: &str,
    old: &(Event<'_>, (usize, usize)),
    new: &Event<'_>,
) -> Result<Option<Patch>, AllocError> {
    let range = old.1;
    let (Some(before), Some(after)) = (replaceable_part(&old.0), replaceable_part(new)) else {
        return Ok(None);
    };
    match (before, after) {
        (ReplaceablePart::Box(_), ReplaceablePart::Box(is_ticked)) => {
            box_patch(alloc, range, is_ticked)
        }
        (ReplaceablePart::Html(_), ReplaceablePart::Html(text)) => html_patch(alloc, range, text),
        (ReplaceablePart::Info(_), ReplaceablePart::Info(info)) => info_patch(
            alloc, source, range.0, info,
        ),
        (ReplaceablePart::Level(level), ReplaceablePart::Level(other)) => {
            heading_patch(alloc, source, range, level, other)
        }
        _ => Ok(None),
    }
}
